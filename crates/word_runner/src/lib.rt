//! Callers of the core on threads, which meet on one table of words.
#![tactic(auto)]

mod access;
pub mod arena;
pub mod blank;
pub mod caller;
pub mod close;
mod ground;
mod rest;
pub mod table_rule;

pub use arena::Arena;
pub use blank::{Blank, NoPlace};
pub use caller::{Caller, Outcome};
pub use close::{EntryList, Final};
pub use rest::Rest;
