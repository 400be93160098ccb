//! The limits of documents, and the settings of one that sets none. Each stands here alone: definitions cite these constants,
//! and so does the code that reads documents.

/// Scripts.
pub const MOST_SCRIPTS: usize = 256;

/// Calls of a script. A workload's callers make calls of a script, so no more than these either.
pub const MOST_CALLS: u32 = 100_000;

/// Turns of a schedule.
pub const MOST_TURNS: usize = 100_000;

/// The greatest caller that a line may name.
pub const MOST_CALLER: u64 = 4_294_967_295;

/// The greatest count of a turn.
pub const MOST_COUNT: u64 = 1_000_000;

/// The slots of a kind.
pub const DEFAULT_SLOTS: u64 = 64;

/// The first phase.
pub const DEFAULT_FIRST: u64 = 1;

/// The last phase.
pub const DEFAULT_LAST: u64 = 1_000_000_000;

/// The steps that an operation may make.
pub const DEFAULT_FUEL: u64 = 1_000_000;
