// The calls of the smoother for C and Rust, on numbers and slices alone: each is one call of a crate below, whose answer it turns into
// the number that C reads. C has no enum with values, so each shape and each difference has a call of its own.
#![tactic(auto)]

mod covariance_calls;
mod kernel_calls;
mod picture_reads;
mod run_calls;
mod service_calls;
mod text_calls;
