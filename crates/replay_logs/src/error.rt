//! Why a run isn't written down.

ghost use Rattle.std.specs.Prelude.{◌≡◌};
ghost use Rattle.replay_logs.specs.declared.error.LogError.TheVariants as errors;

use std::alloc::AllocError;

/// Why the run that a schedule gives isn't written down.
#[derive(Clone, Copy, Debug, PartialEq, Eq)]
pub enum LogError {
    /// Memory ran out.
    Memory,
    /// A turn needs a step of a caller that has none to take, or that doesn't exist.
    StepOfNobody {
        /// The steps made before.
        steps: u64,
    },
    /// As many steps were made as may be, and another is wanted.
    LongReplay {
        /// The steps made.
        steps: u64,
    },
}

impl From<AllocError> for LogError {
    ghost from_gives = { λ _ e. e ≡ errors.Memory };

    fn from(_e: AllocError) -> LogError {
        LogError::Memory
    }
}
