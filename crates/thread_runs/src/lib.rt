//! Scripts run by callers on threads, from a target, or a text that is run as it is, to the final state of all its callers.
#![tactic(auto)]

mod scripts;
mod whole;

pub use scripts::CallList;
pub use whole::{ReadyCallers, run_bare, run_scripts};
