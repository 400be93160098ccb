//! Limits passed, and nodes that aren't there.
#![tactic(auto)]

mod passed;
mod stray;

pub use passed::write_passed;
pub use stray::stray_word;
