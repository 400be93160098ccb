//! The chain of ready slots in the runs of all callers.
#![tactic(auto)]

pub mod laws;
