//! Why a target isn't accepted.

ghost use Rattle.std.specs.Prelude.{◌≡◌};
ghost use Rattle.barrier_check.specs.declared.flaw.VerifyError.TheVariants.{Memory};

use std::alloc::AllocError;

/// What is wrong with a target. Of the kinds of flaw that an instruction has, the one that stands first here is told.
#[derive(Clone, Copy, Debug, PartialEq, Eq)]
pub enum FlawKind {
    /// Erasing the checks and guards gives another text.
    ErasesDifferently,
    /// The instruction uses a register that may hold what a load or a `new` gave and no check has confirmed.
    UncheckedUse,
    /// The instruction needs a register guarded, and on some path it isn't.
    Unguarded,
    /// The instruction needs a register guarded, and on some path no check stands after the guard.
    GuardAfterCheck,
    /// The instruction needs a register guarded, and on some path the guard was undone; or it guards a register again
    /// that the wrap-up keeps.
    GuardDropped,
}

/// The first flaw of a target: its kind, the operation's number in the target, whether the instruction is in its wrap-up,
/// and the instruction's number in its method. Operations and instructions count from 0. If a method erases
/// differently, its first instruction is named, and if the declarations or the counts of operations differ, the first
/// of all.
#[derive(Clone, Copy, Debug, PartialEq, Eq)]
pub struct Flaw {
    pub kind: FlawKind,
    pub op: u8,
    pub wrapup: bool,
    pub at: u16,
}

/// Why `verify` answers no `Barred`.
#[derive(Clone, Copy, Debug, PartialEq, Eq)]
pub enum VerifyError {
    Memory,
    /// The target isn't barred for the text.
    Flawed(Flaw),
}

impl From<AllocError> for VerifyError {
    ghost from_gives = { λ _ e. e ≡ Memory };

    fn from(_e: AllocError) -> VerifyError {
        VerifyError::Memory
    }
}
