//! The reader of targets.
#![tactic(auto)]

mod draft;
pub mod laws;
mod own;
mod plain;
mod reader;

pub use reader::read_target;
