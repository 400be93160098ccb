//! Texts of a set of one bucket that the rules accept, and that aren't proper: each refuted by a run of two callers.
#![tactic(auto)]

pub mod laws;
