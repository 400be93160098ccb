//! A small row of words, and the accesses that are expected of routines.

ghost use Rattle.std.specs.Prelude.{◌≡◌, [], ◌∷◌};

use oa_words::shape::Shape;
use phase_pools::access::Access;
use std::process::Abort;

/// The shape of a row of 1 caller, 3 slots, 2 fields and 1 cell.
pub(crate) fn small(rt: &impl Abort) -> Shape
    ensures { result ≡ record { callers = 1; slots = 3; fields = 2; cells = 1; kinds = 3 ∷ []; tops = 8192 } }
{
    Shape::new(1, 3, 2, 1).expect(rt, "the numbers are in range")
}

/// The words of such a row, all 0 but the phase, the warning, the first hazard, the statuses of slots 1 to 3 and of null, the head,
/// and the links of slots 1 to 3. A status is 4 times a phase, and 0 for ready, 1 for used, 2 for retired; a head is 8192 times a
/// phase, and the slot on top.
pub(crate) fn row(phase: u64, hazard: u64, statuses: [u64; 3], chain: [u64; 4]) -> [u64; 29] {
    let mut words = [0; 29];
    words[0] = phase;
    words[2] = phase;
    words[3] = hazard;
    words[11] = 5;
    words[12] = statuses[0];
    words[13] = statuses[1];
    words[14] = statuses[2];
    words[24] = chain[0];
    words[26] = chain[1];
    words[27] = chain[2];
    words[28] = chain[3];
    words
}

pub(crate) fn load(at: u32) -> Access {
    Access::Load { at }
}

pub(crate) fn store(at: u32, word: u64) -> Access {
    Access::Store { at, word }
}

pub(crate) fn exchange(at: u32, expected: u64, replacement: u64) -> Access {
    Access::CompareExchange {
        at,
        expected,
        replacement,
    }
}

pub(crate) fn raise(at: u32, word: u64) -> Access {
    Access::FetchMax { at, word }
}
