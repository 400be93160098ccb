//! What the program is given: the words of its command line, and the bytes of a source.
#![tactic(auto)]

mod command;
pub mod input;

pub use command::{Command, Request, request_of};
