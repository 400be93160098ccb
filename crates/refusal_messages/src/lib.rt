//! What is said of a broken rule.
#![tactic(auto)]

mod named;
mod refused;

pub use named::{Blame, named_for};
pub use refused::{RefusedLines, refused_lines, write_refused};
