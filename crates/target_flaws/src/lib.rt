//! Which flaws an instruction of a target has: each as a test that is exact for the instruction at its place, by facts over
//! the paths of its method that are found once for all instructions.
#![tactic(auto)]

mod checks;
mod facts;
mod flawed;
mod guards;
mod machines;
mod needs;
mod uses;

pub use facts::TargetFacts;
pub use flawed::flaws;
pub use needs::Needs;
