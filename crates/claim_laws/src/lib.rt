//! What the answers `full` and `phases` say of a run, and how many claims a full pool takes: laws over every list of events.
#![tactic(auto)]

pub mod laws;
