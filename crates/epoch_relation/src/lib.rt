//! Callers under epochs beside the source machine: what is known of them, and that each of their steps keeps it (Fraser, "Practical
//! Lock-Freedom", 2004).
#![tactic(auto)]

pub mod laws;
