//! What a run of callers gives to the source machine, written down step by step.
#![tactic(auto)]

pub mod laws;
pub mod log;
pub mod steps;

pub use log::Log;
