//! That a caller that runs an operation makes its `new`: the call of a claim, its ends, and the zeroes.
#![tactic(auto)]

pub mod laws;
