//! Whether the events of a run show that its text isn't proper: the first state that breaks a condition, and which one.
#![tactic(auto)]

mod breach;
mod changes;
mod event;
mod judging;
mod laws;
mod marks;
mod numbers;
mod reach;
mod runs;
mod trace;

pub use breach::{Breach, breach_number};
pub use judging::{SoFar, judge_run};
pub use laws::improper_is_improper;
pub use reach::{add_targets, is_in, root_names};
pub use runs::{Gain, gain_at, is_in_wrap_up};
pub use trace::{Trace, trace_breach};
