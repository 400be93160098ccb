//! The guards of a caller, and the slots that a sweep gathers.
#![tactic(auto)]

pub mod gathered;
pub mod laws;
pub mod row;

pub use gathered::Gathered;
pub use row::GuardRow;
