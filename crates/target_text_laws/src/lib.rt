//! What holds of every target that bytes spell: laws over the definitions of the reader, apart from it.
#![tactic(auto)]

pub mod laws;
