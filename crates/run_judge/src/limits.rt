//! The limit of a certificate's run. It stands here alone: the definition cites this constant, and so does the code.

/// Steps of a run that is certified.
pub const MOST_STEPS: u64 = 2_000_000;
