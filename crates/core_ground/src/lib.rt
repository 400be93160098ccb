//! What callers run, a barred target or a text as it is, and the words on which they run.
#![tactic(auto)]

pub mod loaded;
mod places;
pub mod port;
pub mod prepared;
pub mod running;
pub mod words;

pub use loaded::{LoadedTarget, Ready};
pub use port::Port;
pub use prepared::Prepared;
pub use running::Runs;
pub use words::PlainWords;
