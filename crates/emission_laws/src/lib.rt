//! That the lines of an operation make the accesses of the core's caller.
#![tactic(auto)]

pub mod laws;
