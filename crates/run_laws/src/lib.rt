//! What a complete run of scripts has to do with memory that is never recycled: the laws of the simulation together.
#![tactic(auto)]

pub mod begin_laws;
pub mod guarded_claims;
pub mod laws;
pub mod lone_claims;
pub mod stale_laws;
