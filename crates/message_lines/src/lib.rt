//! Lines of what was read, and their words.
#![tactic(auto)]

pub mod lines;
pub mod words;
