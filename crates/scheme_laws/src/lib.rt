//! Two schemes of compiling compared: combined checks, by which `compile` goes, and the first scheme, which checks each load at
//! once.
#![tactic(auto)]

pub mod laws;
