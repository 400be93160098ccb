//! What becomes of a command and its input.

use line_words::fault::ParseFault;
use norm_check::Refusal;
use norm_lang::text::{ByteText, Text};
use proper_judge::Breach;

/// What was read and judged.
#[derive(Drop)]
pub enum Verdict {
    /// The events of the certificate are a run of its text, and each state of it is proper.
    Proper,
    /// The state after the event at this place, from 0, shows that the text isn't proper, by this breach. The message says where and how.
    Improper {
        breach: Breach,
        at: u64,
        message: ByteText,
    },
    /// The event at this place, from 0, isn't enabled. The message says where it stands.
    NotEnabled {
        at: u64,
        message: ByteText,
    },
    /// How the program is used.
    Help,
    /// The program's version.
    Version,
    /// The words are no command.
    Usage,
    ReadFault,
    /// The input is longer than a certificate may be.
    LongInput,
    /// The bytes are no certificate.
    BadCertificate(ParseFault),
    /// The text isn't in normal form, and this is why.
    Refused(Text, Refusal),
    /// The certificate's document can't be run as it is: what is wrong with its shape, by its number, and where.
    BadShape {
        number: u8,
        at: u64,
    },
    Memory,
}
