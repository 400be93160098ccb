//! What becomes of a command: the statuses, their numbers, and a sentence on each for a person.
#![tactic(auto)]

mod explanation;
pub mod limits;
mod status;

pub use explanation::{explain, fault_words, method_words, rule_words, shape_words};
pub use norm_check::Refusal;
pub use status::{Status, status_number};
