//! Texts: operations in normal form over a row of nodes and a list of roots, after Timnat and Petrank (PPoPP 2014). It is larger than
//! other crates, as the canonical spelling and the shipped texts belong to what a text is.
#![tactic(auto)]

pub mod duplicate;
pub mod fields;
mod forks;
pub mod limits;
mod line;
pub mod list;
pub mod local;
pub mod registers;
pub mod reply;
mod shipped;
pub mod spelling;
pub mod text;
pub mod uses;
pub mod word;

pub use forks::{Fork, reach};
pub use reply::SourceReply;
pub use shipped::{shipped_queue, shipped_set};
pub use spelling::show;
pub use text::{
    ByteText, CasEntry, Code, Entries, FieldDecl, FieldKind, Fields, Instr, Kinds, Marks, Name,
    NodeDecl, Nodes, Op, Ops, Place, Reg, RootDecl, Roots, Start, Starts, Text, Version,
};
