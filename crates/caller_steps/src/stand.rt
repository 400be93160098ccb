//! Where a caller stands, apart from what its claim keeps.

use caller_parts::{AfterClear, AfterRetire, Announcing, MethodStart};
use phase_pools::retire::RetireState;

/// Where a caller stands between two accesses: a `Routine` without its claim. A claim has room for all that a sweep gathers, and most steps
/// write where the caller stands, so the claim stands beside this.
#[derive(Drop)]
pub enum Stand {
    /// No call runs.
    Idle,
    /// Before the load of the caller's own warning into `seen`.
    LoadSeen(MethodStart),
    /// Before the load, check, guard, put or auxiliary exchange of the instruction.
    At,
    /// Before the exchange of the list with this number; so many have succeeded.
    InList(usize),
    /// In a retirement, after an exchange that succeeded.
    Retires(RetireState, AfterRetire),
    /// Before the store of 0 to the hazard of the least register that is to be cleared, after a failed check.
    Restarts,
    /// The same at another moment, and what follows.
    Clears(AfterClear),
    /// In the entry's claim, for a `new` whose cradle is empty. An entry without a claim stands at the instruction instead.
    Claims,
    /// Before the store of 0 to a field of the slot in a cradle: the cradle and the field.
    Zeroes(usize, u32),
    /// Before an access of an announcement.
    Announces(Announcing),
}
