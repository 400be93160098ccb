//! What the programs of rows have in common: which lines are rows, how rows spell the lines that are read, numbers, and moves of callers, and
//! why a row has no answer.
#![tactic(auto)]

mod error;
mod limits;
mod moves;
mod rows;
mod spelling;

pub use error::RowError;
pub use limits::few;
pub use moves::{Deed, Who, moves_in, number, numbers};
pub use rows::{cut, take_line, write_answer};
pub use spelling::{NamedLines, one_line, spelled, take_lines};
