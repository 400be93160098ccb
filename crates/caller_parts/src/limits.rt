//! The limit of phases. It stands here alone: the definition cites this constant, and so does the code that makes settings.

/// Phases, so that each fits into a word beside a slot or the kind of a status.
pub const MOST_PHASES: u64 = 1 << 50;
