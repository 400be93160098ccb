//! Examples for a library's user: proved callers of the crates that are meant to be called, to read and to copy.
#![tactic(auto)]

mod judging;
mod texts;

pub use judging::{JudgingProblem, judge_bytes};
pub use texts::{TargetProblem, TextProblem, compile_bytes, read_normal, verify_bytes};
