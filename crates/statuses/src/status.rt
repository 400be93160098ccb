//! How the program ends.

ghost use Rattle.std.specs.Prelude.{◌≡◌};
ghost use Rattle.statuses.specs.Statuses.{number_of};

use norm_check::Refusal;

/// What became of a command.
#[derive(Clone, Copy, Debug, PartialEq, Eq)]
pub enum Status {
    /// Every call has a reply, or the text or the certificate was accepted, or the text was shown, upgraded or compiled.
    Done,
    /// An answer that is printed, counted by a workload, or told by a certificate that is made, is `full`, `phases` or `spent`.
    Partial,
    /// The words are no command.
    Usage,
    /// The source failed.
    ReadFault,
    /// The input is longer than a document may be, or a certificate that is judged.
    LongInput,
    /// The bytes are no document, or no certificate: the first line that has a fault, from 1, and the fault's number.
    BadDocument { line: u32, fault: u8 },
    /// The text isn't in normal form: the first rule that it breaks, and where.
    Refused { refusal: Refusal },
    /// The document can't be run as it is: what is wrong with its shape, by its number, and where.
    BadShape { number: u8, at: u64 },
    /// The sink failed.
    WriteFault,
    /// Memory ran out: before the first step of a call, in a workload before the first step of its second part, and when a certificate is made
    /// or judged at any step.
    Memory,
    /// The certificate doesn't tell of a run of its document: what is wrong, by its number, and at which event or caller, from 0.
    Rejected { number: u8, at: u64 },
}

/// The number with which the program ends.
pub fn status_number(status: Status) -> u8
    ensures { result ≡ number_of status }
{
    match status {
        Status::Done => 0,
        Status::Partial => 1,
        Status::Usage => 2,
        Status::ReadFault => 3,
        Status::LongInput => 4,
        Status::BadDocument { .. } => 5,
        Status::Refused { .. } => 6,
        Status::BadShape { .. } => 7,
        Status::WriteFault => 8,
        Status::Memory => 9,
        Status::Rejected { .. } => 11,
    }
}
