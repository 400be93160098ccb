//! Runs of the core: all callers and the words that they share.
#![tactic(auto)]

pub mod caller_laws;
pub mod core_sound;
pub mod laws;
