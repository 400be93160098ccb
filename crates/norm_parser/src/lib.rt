//! The reader of texts: what lines declare, instructions, and the first fault. It is larger than other crates, as all lines of a text are
//! read into one draft, which no other crate sees.
#![tactic(auto)]

mod cursor;
mod draft;
mod front;
mod head;
mod instruction;
pub mod laws;
mod lines;
mod reader;
mod sections;
mod version;

pub use cursor::{Cursor, number_past};
pub use head::Head;
pub use instruction::parse_instr;
pub use line_words::fault::{ParseError, ParseFault};
pub use reader::{parse, parse_front, parse_head, read_front, read_head};
pub use version::{numbered_version, read_second_version, read_version};
