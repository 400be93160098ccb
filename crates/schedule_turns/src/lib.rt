//! The turns of a schedule, as documents hold them and the callers' core makes them.
#![tactic(auto)]

mod turn;

pub use turn::{StepKind, Turn};
