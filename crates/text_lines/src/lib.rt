//! The lines of a text: what each declares, or which instruction it is by its first word and what it says, or its first
//! fault.
#![tactic(auto)]

pub mod declarations;
mod instructions;
mod steps;

pub use steps::{Step, read_entry, read_step};
