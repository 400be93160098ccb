//! What a caller of a barred target, or of a text as it is, does next, and its step on plain words.
#![tactic(auto)]

pub mod entry;
mod kinds;
pub mod signs;
pub mod step;
pub mod telling;

pub use entry::Entry;
pub use signs::{Sign, Signs};
