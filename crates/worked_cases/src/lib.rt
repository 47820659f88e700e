#![tactic(auto)]

// No code: REFERENCE's worked cases, as one table that the prover computes.
