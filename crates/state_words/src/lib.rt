//! States of the source machine as words of a few bytes each. What a word stands for is a definition; which word stands for a state isn't.
#![tactic(auto)]

mod cells;
mod index;
mod numbering;
mod reading;
mod snapshot;
mod writing;

pub use cells::{cell, cells_of};
pub use index::Index;
pub use numbering::order_of;
pub use reading::read_snapshot;
pub use snapshot::Snapshot;
pub use writing::word_of;
