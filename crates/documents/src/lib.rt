//! Documents: a text, the settings of a run, what each caller calls, and a schedule.
#![tactic(auto)]

mod calls;
mod document;
pub mod laws;
pub mod limits;
mod lines;
mod reader;
mod schedule;
mod sections;
mod settings;
mod tail;

pub use document::{Document, Numbers, Script, ScriptCall, Scripts, Turns};
pub use reader::read_document;
