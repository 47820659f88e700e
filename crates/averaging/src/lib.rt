#![tactic(auto)]

// No code: the laws of averages, and the distance of a rounded run from the exact one, are theorems of proofs/.
