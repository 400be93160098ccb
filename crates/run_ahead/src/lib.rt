//! A caller that walks through compiled code, and the source machine, whose local code runs ahead of it.
#![tactic(auto)]

pub mod laws;
