//! Why callers of an arena answer that the pool is full, or that phases are over.
#![tactic(auto)]

pub mod laws;
