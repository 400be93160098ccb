//! What replays share: the entries at the start, what a turn looks up, and the count of steps.
#![tactic(auto)]

pub mod counting;
pub mod entries;
pub mod looking;
