//! The top call of `oac`: from a name and the bytes of a document to a header of C11.
#![tactic(auto)]

mod command;
mod emission;
mod ending;
pub mod laws;
mod program;
mod texts;
mod top;

pub use emission::emit;
pub use ending::conclude;
pub use program::{run_program, serve};
pub use top::oac_main;
