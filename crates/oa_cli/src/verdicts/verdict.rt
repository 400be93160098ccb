//! What becomes of a command and its input.

use line_words::fault::ParseFault;
use norm_check::Refusal;
use norm_lang::text::{ByteText, Text};
use script_driver::{Report, WorkloadReport};

/// What was read and judged.
#[derive(Drop)]
pub enum Verdict {
    /// The answers to the document's calls.
    Answered(Report),
    /// What the answers of a workload add up to.
    Worked(WorkloadReport),
    /// The document's text is in normal form, or the certificate tells of a run of its document.
    Accepted,
    /// The canonical spelling of the document's text, or of the whole document.
    Shown(ByteText),
    /// The canonical spelling of what the document's text compiles to.
    Compiled(ByteText),
    /// The canonical spelling of a certificate that was made, and whether a call of it has no reply, or ended without a slot or a phase.
    Certified { spelling: ByteText, partial: bool },
    /// The words are no command.
    Usage,
    ReadFault,
    /// The input is longer than a document may be, or a certificate.
    LongInput,
    /// The bytes are no document, or no certificate.
    BadDocument(ParseFault),
    /// The document's text isn't in normal form, and this is why.
    Refused(Text, Refusal),
    /// The document can't be run as it is: what is wrong with its shape, by its number, and where.
    BadShape { number: u8, at: u64 },
    Memory,
    /// The certificate doesn't tell of a run of its document: what is wrong, by its number, and at which event or caller, from 0.
    Rejected { number: u8, at: u64 },
}
