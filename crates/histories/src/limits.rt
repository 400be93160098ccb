//! The limit of histories. It stands here alone: the definition cites this constant, and so does the code.

/// Calls of a history that is searched.
pub const MOST_CALLS: usize = 10;
