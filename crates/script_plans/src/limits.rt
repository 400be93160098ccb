//! The limit of a document's fuel. It stands here alone: the definition cites this constant, and so does the code.

/// Steps that may be made for a call.
pub const MOST_FUEL: u64 = 1_000_000_000;
