//! Judging a run that others report: whether its events are a run of a text that begins the calls of scripts in order, and whether its
//! replies are those that such a run gives.
#![tactic(auto)]

mod agreement;
mod calls;
mod judging;
pub mod laws;
mod verdict;

pub use calls::{count, padded};
pub use judging::judge_events;
pub use verdict::Verdict;
