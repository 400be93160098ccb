//! Why a document can't be run.

ghost use Rattle.std.specs.Prelude.{◌≡◌};
ghost use Rattle.script_plans.specs.declared.fault.RunFault.TheVariants as told;
ghost use Rattle.script_plans.specs.Told.{fault_told, refusal_told};

use norm_check::{CheckError, Refusal};
use std::alloc::AllocError;

/// What is wrong with the shape of a document: its number, and where.
///
/// 1 the scripts aren't 1 to 8; 2 the slots of a kind, or of all kinds together, aren't 1 to 4096; 3 and 4 are of the text's fields and
/// roots, whose grammar has no such fault; 5 a kind has more initial nodes than slots; 6 the phases F and L aren't
/// `1 <= F <= L <= 2^50`; 7 the fuel isn't 1 to 1,000,000,000; 8 a call line names no operation of the text; 9 a call line has another
/// count of arguments than its operation. The place of 5 is the first such kind, counted from 0, that of 8 and 9 the line, and that of
/// the others 0.
#[derive(Clone, Copy, Debug, PartialEq, Eq)]
pub struct ShapeFault {
    pub number: u8,
    pub at: u64,
}

/// Why a document can't be run.
#[derive(Clone, Copy, Debug, PartialEq, Eq)]
pub enum RunFault {
    Memory,
    /// The document's text isn't in normal form.
    Refused(Refusal),
    /// The document's shape is refused: with a number of `ShapeFault`. In a replay also 10, if a turn needs a step of a
    /// caller that has none to take, with the steps made before, and 11, if too many steps were made, with their count.
    Shape { number: u8, at: u64 },
}

impl From<AllocError> for RunFault {
    ghost from_gives = { λ _ e. e ≡ told.Memory };

    fn from(_e: AllocError) -> RunFault {
        RunFault::Memory
    }
}

impl From<CheckError> for RunFault {
    ghost from_gives = { λ error e. e ≡ refusal_told error };

    fn from(error: CheckError) -> RunFault {
        match error {
            CheckError::Memory => RunFault::Memory,
            CheckError::Refused(refusal) => RunFault::Refused(refusal),
        }
    }
}

impl From<ShapeFault> for RunFault {
    ghost from_gives = { λ fault e. e ≡ fault_told fault };

    fn from(fault: ShapeFault) -> RunFault {
        RunFault::Shape {
            number: fault.number,
            at: fault.at,
        }
    }
}
