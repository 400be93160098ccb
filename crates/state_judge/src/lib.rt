//! What one state of the source machine breaks, judged anew each time: for searches through small states.
#![tactic(auto)]

mod breach;
mod reach;
mod runs;

pub use breach::{find_breach, is_once, runs_method};
pub use runs::{ListedRun, first_runs, follow_machine};
