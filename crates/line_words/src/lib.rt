//! The words of a line, what each says, and what may be wrong with a line.
#![tactic(auto)]

pub mod fault;
pub mod number;
pub mod operands;
pub mod words;
