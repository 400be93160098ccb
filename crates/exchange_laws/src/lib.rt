//! That the lines of exchanges, lists of exchanges and retirements make their accesses.
#![tactic(auto)]

pub mod laws;
