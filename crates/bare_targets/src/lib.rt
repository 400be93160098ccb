//! Laws of texts that are run as they are, by callers who need no checks and no guards.
#![tactic(auto)]

pub mod laws;
