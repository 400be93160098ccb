//! How many slots the shipped texts need: laws over every run of the code that they compile to.
#![tactic(auto)]

pub mod laws;
