//! What can be wrong with a line's bytes.

/// The first thing that is wrong with a line, with the line's number and the column. Both count from 1.
#[derive(Clone, Copy, Debug, PartialEq, Eq)]
pub enum TextFault {
    /// A byte other than a tab and those from space to `~`.
    Byte { line: u32, column: u32 },
    /// A number above 2^64 - 1.
    Number { line: u32, column: u32 },
    /// More than 200 bytes without the newline; the column is 201.
    LineLong { line: u32, column: u32 },
}
