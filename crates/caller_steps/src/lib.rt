//! One caller of the core: the one access that it makes next, and what becomes of it once a word was found. It is larger than other crates,
//! as each of both halves has a case for each routine, and a change of one is a change of the other.
#![tactic(auto)]

mod accepting;
pub mod entry;
mod moving;
pub mod stand;
mod wanting;

pub use caller_parts::{
    AfterClear, AfterRetire, AnnounceReason, Announcing, Call, Code, MethodStart, Program,
    Reclamation, Replied, Replies, Reply, Routine, Running, Setting, SettingFault, Step,
};
pub use entry::{Counts, Entry, Hand};
pub use stand::Stand;
