//! The limit of replays. It stands here alone: the definition cites this constant, and so does the code.

/// Steps of a replay.
pub const MOST_STEPS: u64 = 20_000_000;
