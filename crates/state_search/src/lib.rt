//! The search through all runs of scripts, up to names: a loop over any explorer that goes on from one state after another.
#![tactic(auto)]

mod walk;

pub use walk::{Answer, Explorer, Went, search};
