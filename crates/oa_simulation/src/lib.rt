//! The simulation: callers over memory that is recycled answer as on memory that never is, however their steps interleave
//! (Cohen and Petrank, SPAA 2015; Timnat and Petrank, PPoPP 2014).
#![tactic(auto)]

pub mod laws;
