//! The limit of a line. It stands here alone: definitions cite this constant, and so does the code that reads lines.

/// Bytes of a line, without its newline.
pub const LONGEST_LINE: usize = 200;
