//! Why a text could not be read.

ghost use Rattle.std.specs.Prelude.{◌≡◌};
ghost use Rattle.line_words.specs.declared.fault.Stop.TheVariants as stops;
ghost use Rattle.line_words.specs.declared.fault.ParseError.TheVariants as errors;
ghost use Rattle.line_words.specs.Faults.{number_of_fault, stopped_at};

use std::alloc::AllocError;

/// What is wrong with a line.
#[derive(Clone, Copy, Debug, PartialEq, Eq)]
pub enum Fault {
    /// It has a byte other than a tab and those from space to `~`.
    Byte,
    /// It has a number that exceeds 2^64 - 1.
    Number,
    /// It has more than 200 bytes.
    LineLong,
    /// Its words make no line that may stand there.
    Form,
    /// It names a kind, a field, a root or an initial node that isn't declared.
    UnknownName,
    /// It declares a name that was declared for the same kind of thing.
    Repeated,
    /// It passes a limit.
    TooMany,
    /// It gives an initial node where one of another kind must stand.
    Mismatch,
}

impl Fault {
    /// The number by which the fault is told.
    pub fn number(self) -> u8
        ensures { result ≡ number_of_fault self }
    {
        match self {
            Fault::Byte => 1,
            Fault::Number => 2,
            Fault::LineLong => 3,
            Fault::Form => 4,
            Fault::UnknownName => 5,
            Fault::Repeated => 6,
            Fault::TooMany => 7,
            Fault::Mismatch => 8,
        }
    }
}

/// The first line that has a fault, from 1, and its first fault in the order 3, 1, 4, 2, 5, 6, 7, 8: 1 a byte that may not
/// stand, 2 a number above 2^64 - 1, 3 a line of more than 200 bytes, 4 words that make no line that may stand there, 5 a
/// name that isn't declared, 6 a name that is declared again, 7 a limit passed, 8 an initial node of another kind.
#[derive(Clone, Copy, Debug, PartialEq, Eq)]
pub struct ParseFault {
    pub line: u32,
    pub number: u8,
}

/// Why a text, or a part of one, could not be read.
#[derive(Clone, Copy, Debug, PartialEq, Eq)]
pub enum ParseError {
    /// Memory ran out.
    Memory,
    /// A line has a fault, or a further line must follow.
    Fault(ParseFault),
}

impl From<AllocError> for ParseError {
    ghost from_gives = { λ _ e. e ≡ errors.Memory };

    fn from(_e: AllocError) -> ParseError {
        ParseError::Memory
    }
}

/// Why the reader of one line stops.
#[derive(Clone, Copy, Debug, PartialEq, Eq)]
pub enum Stop {
    /// Memory ran out.
    Memory,
    /// The line has a fault.
    Fault(Fault),
}

impl From<AllocError> for Stop {
    ghost from_gives = { λ _ e. e ≡ stops.Memory };

    fn from(_e: AllocError) -> Stop {
        Stop::Memory
    }
}

impl From<Fault> for Stop {
    ghost from_gives = { λ fault e. e ≡ stops.Fault fault };

    fn from(fault: Fault) -> Stop {
        Stop::Fault(fault)
    }
}

impl Stop {
    /// The same of a text, at the line's number.
    pub fn at(self, line: u32) -> ParseError
        ensures { result ≡ stopped_at line self }
    {
        match self {
            Stop::Memory => ParseError::Memory,
            Stop::Fault(fault) => ParseError::Fault(ParseFault {
                line,
                number: fault.number(),
            }),
        }
    }
}
