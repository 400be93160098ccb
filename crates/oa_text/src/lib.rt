//! Lines, tokens and numbers of a text, and the sources and sinks that bytes come from and go to.
#![tactic(auto)]

mod cutting;
mod decimal;
mod fault;
mod gate;
mod laws;
pub mod limits;
mod line;
mod number;
mod pieces;
mod reading;
mod sink;
mod source;
mod standard;
mod sure;
mod token;

pub use cutting::{blanks_in_front, ink_in_front};
pub use decimal::{put_decimal, write_decimal};
pub use fault::TextFault;
pub use gate::{Gate, OpenGate};
pub use laws::{tokens_are_slices, tokens_hold_all};
pub use line::{Line, Lines};
pub use number::{read_numeral, read_u64};
pub use pieces::{Part, Piece, Spelled, write_each, write_parts, write_piece, write_pieces};
pub use reading::{lines, tokens};
pub use sink::{MemorySink, Sink, write_all};
pub use source::{Failed, MemorySource, Source};
pub use standard::{StdSink, StdSource};
pub use sure::{SureSink, SureSource};
pub use token::{Token, Tokens};
