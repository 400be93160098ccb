//! The program `oax` but its `main`: from the words of the command line and the bytes of a source to a status, what is written, and a message.
#![tactic(auto)]

mod ending;
mod explaining;
mod input;
mod judging;
mod paths;
mod program;
mod request;
mod telling;
mod top;
mod verdict;

pub use ending::{Ending, ending_number};
pub use explaining::explain;
pub use messages::RememberingSource;
pub use program::{run_program, serve};
pub use request::{Request, request_of};
pub use top::{Outcome, oax_main};
pub use verdict::Verdict;
