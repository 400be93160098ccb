//! The limits of texts. Each stands here alone: definitions cite these constants, and so does the code that reads texts.

/// Node kinds.
pub const MOST_KINDS: usize = 4;

/// Fields of a kind.
pub const MOST_FIELDS: usize = 4;

/// Initial nodes.
pub const MOST_NODES: u64 = 256;

/// Roots.
pub const MOST_ROOTS: usize = 256;

/// Roots that one `pick` chooses among.
pub const MOST_PICKED: u64 = 256;

/// Operations.
pub const MOST_OPS: usize = 16;

/// Arguments of an operation.
pub const MOST_ARGUMENTS: u64 = 4;

/// Instructions of a method.
pub const MOST_INSTRS: usize = 256;

/// The `new` of an operation, in both methods.
pub const MOST_NEWS: usize = 4;

/// Exchanges of a commit.
pub const MOST_ENTRIES: u64 = 4;

/// The greatest number of an instruction that a jump may name.
pub const LAST_TARGET: u64 = 65_535;

/// Buckets of the shipped hash set.
pub const MOST_BUCKETS: u64 = 64;
