//! Which kinds registers may have on the paths of a target's methods, and that local code, loads and new nodes give a caller's registers no others.
#![tactic(auto)]

pub mod laws;
