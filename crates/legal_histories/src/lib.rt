//! The printed answers of a shipped text's callers have one legal history: their calls can be put in one order, each caller's in its own,
//! in which a set, or a queue, that is empty at first gives each answer.
#![tactic(auto)]

pub mod laws;
