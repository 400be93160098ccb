//! What one command writes is taken by another.
#![tactic(auto)]

pub mod laws;
