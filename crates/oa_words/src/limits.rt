//! The limits of a row's sizes. Each stands here alone: definitions cite these constants, and so does the code.

/// Callers.
pub const MOST_CALLERS: u32 = 8;

/// Node kinds.
pub const MOST_KINDS: u32 = 4;

/// Slots: of a kind, and of all kinds together.
pub const MOST_SLOTS: u64 = 4096;

/// Fields of a node.
pub const MOST_FIELDS: u32 = 4;

/// Cells: one for each root.
pub const MOST_CELLS: u32 = 256;

/// A head's word is this number times a phase, and a slot below it.
pub const TOPS: u64 = 8192;
