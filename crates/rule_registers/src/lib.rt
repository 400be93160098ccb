//! Which register is at fault if an instruction breaks a rule.
#![tactic(auto)]

mod blaming;
pub mod laws;
mod misplaced;
mod search;

pub use search::register_at_fault;
