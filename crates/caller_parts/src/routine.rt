//! Where a caller stands: before which access.

use crate::call::Reply;
use phase_pools::claim::ClaimState;
use phase_pools::retire::RetireState;

/// The method run that begins with a load of the caller's own warning.
#[derive(Clone, Copy)]
pub enum MethodStart {
    /// An operation's first run of its generator.
    Begin,
    /// The wrap-up, after a list has ended.
    WrapUp,
    /// The generator, after `again`.
    Again,
}

/// What follows once no guard is left to clear.
#[derive(Clone, Copy)]
pub enum AfterClear {
    /// The fields of a `new`, or first its claim.
    New,
    /// The load of the warning at a wrap-up's start.
    WrapUp,
    /// The end of the call, with this reply.
    Reply(Reply),
    /// The load of the warning after `again`.
    Again,
}

/// What follows a retirement.
#[derive(Clone, Copy)]
pub enum AfterRetire {
    /// The next instruction.
    Next,
    /// What follows the exchange of the list with this number, counted from 0.
    List(usize),
}

/// Why a caller under epochs announces the phase; the generator runs from its start then.
#[derive(Clone, Copy)]
pub enum AnnounceReason {
    /// An operation begins.
    Begin,
    /// It begins again, after `again`.
    Again,
    /// The caller has claimed a slot after a sweep of its own, for which it had withdrawn its announcement.
    Swept,
}

/// An access with which a caller under epochs announces the phase in its own warning word, or withdraws what it has announced there
/// (Fraser, "Practical Lock-Freedom", 2004).
#[derive(Clone, Copy)]
pub enum Announcing {
    /// The load of the phase.
    Loads(AnnounceReason),
    /// The store of that phase.
    Stores(AnnounceReason, u64),
    /// The store of 0, with which the call ends with this reply.
    Leaves(Reply),
}

/// Where a caller stands between two accesses.
#[derive(Drop)]
pub enum Routine {
    /// No call runs.
    Idle,
    /// Before the load of the caller's own warning into `seen`.
    LoadSeen(MethodStart),
    /// Before the load, check, guard, put or auxiliary exchange of the instruction.
    At,
    /// Before the exchange of the list with this number; so many have succeeded.
    InList(usize),
    /// In a retirement, after an exchange that succeeded.
    Retires(RetireState, AfterRetire),
    /// Before the store of 0 to the hazard of the least register that is to be cleared, after a failed check.
    Restarts,
    /// The same at another moment, and what follows.
    Clears(AfterClear),
    /// In a claim, for a `new` whose cradle is empty.
    Claims(ClaimState),
    /// Before the store of 0 to a field of the slot in a cradle: the cradle and the field.
    Zeroes(usize, u32),
    /// Before an access of an announcement.
    Announces(Announcing),
}
