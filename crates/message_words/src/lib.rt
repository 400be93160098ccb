//! How lines are spelled, and broken rules mended.
#![tactic(auto)]

mod forms;
mod limits;
mod mends;

pub use forms::line_form;
pub use limits::{Limit, limit_words};
pub use mends::rule_mend;
