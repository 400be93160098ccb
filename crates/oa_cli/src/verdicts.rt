//! What becomes of a command: verdicts, what is written of each, the status, and the end of the program.

mod ending;
mod stopping;
mod telling;
mod verdict;

pub use crate::verdicts::ending::{conclude, explain_status, finish};
pub use crate::verdicts::telling::say;
pub use crate::verdicts::verdict::Verdict;
