//! Callers of a text that is run as it is, under epochs: what a caller does next, and its step.
#![tactic(auto)]

pub mod entry;
pub mod setting;

pub use entry::EpochEntry;
