//! What compiled code gives a caller that walks through it: laws over the definitions of the language and of targets.
#![tactic(auto)]

pub mod local_code;
pub mod local_laws;
pub mod places;
pub mod rules;
pub mod target_runs;
pub mod trusted;
pub mod uses;
