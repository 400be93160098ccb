//! What the program says on standard error, with what it has read before it: which line is at fault, and how to mend it.
#![tactic(auto)]

mod faults;
mod message;
mod owed;
mod remembering;
mod shapes;
mod turns;

pub use message::explain_read;
pub use remembering::RememberingSource;
pub use turns::StoppedTurn;
