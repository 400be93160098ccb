//! Callers that run C beside the core: each run of matching ones is a run of the core.
#![tactic(auto)]

pub mod laws;
