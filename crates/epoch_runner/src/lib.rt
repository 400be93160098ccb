//! Callers of a text that is run as it is, under epochs, on threads, which meet on one table of words.
#![tactic(auto)]

mod arena;
mod blank;
mod caller;
mod close;
mod rest;

pub use arena::EpochArena;
pub use blank::{EpochBlank, EpochNoPlace};
pub use caller::{EpochCaller, EpochOutcome};
pub use close::{EpochEntryList, EpochFinal};
pub use rest::EpochRest;
