//! How the program ends.

ghost use Rattle.std.specs.Prelude.{◌≡◌};
ghost use Rattle.oax_cli.specs.Endings.{is_write_fault, number_of};

use norm_check::Refusal;

/// How a command ended.
#[derive(Clone, Copy)]
pub enum Ending {
    /// The run is proper so far, or the help or the version was written.
    Done,
    /// The run shows that the text isn't proper, or an event of it isn't enabled.
    Found,
    /// The words are no command.
    Usage,
    /// The source failed.
    ReadFault,
    /// The input is longer than a certificate may be.
    LongInput,
    /// The bytes are no certificate: the first line that has a fault, from 1, and the fault's number.
    BadCertificate { line: u32, fault: u8 },
    /// The text isn't in normal form: the first rule that it breaks, and where.
    Refused { refusal: Refusal },
    /// The certificate's document can't be run as it is: what is wrong with its shape, by its number, and where.
    BadShape { number: u8, at: u64 },
    /// The sink failed.
    WriteFault,
    /// Memory ran out.
    Memory,
}

/// The number with which the program ends.
pub fn ending_number(ending: Ending) -> u8
    ensures { result ≡ number_of ending }
{
    match ending {
        Ending::Done => 0,
        Ending::Usage => 2,
        Ending::ReadFault => 3,
        Ending::LongInput => 4,
        Ending::BadCertificate { .. } => 5,
        Ending::Refused { .. } => 6,
        Ending::BadShape { .. } => 7,
        Ending::WriteFault => 8,
        Ending::Memory => 9,
        Ending::Found => 11,
    }
}

pub(crate) fn is_write_fault(ending: Ending) -> bool
    ensures { result ≡ is_write_fault ending }
{
    matches!(ending, Ending::WriteFault)
}
