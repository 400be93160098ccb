//! The run of scripts that the turns of a schedule give, and what it tells the source machine, written down step by step.
#![tactic(auto)]

mod error;
mod parts;
mod progress;
pub mod replaying;
mod replies;

pub use error::LogError;
pub use replaying::{LoggedRun, log_replay};
