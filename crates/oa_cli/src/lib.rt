//! The top call: from the words of the command line and the bytes of a source to a status and what is written.
#![tactic(auto)]

mod certifying;
mod program;
mod reading;
mod rules;
mod top;
pub mod verdicts;

pub use crate::verdicts::{conclude, explain_status, finish};
pub use command_input::input;
pub use messages::RememberingSource;
pub use program::{command_words, run_program, serve};
pub use reading::read_source;
pub use rules::judge_text;
pub use statuses::{Refusal, Status, explain, status_number};
pub use top::{oa_main, refused};
