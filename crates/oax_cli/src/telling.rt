//! What is written of a verdict, and how the command ends.

ghost use Rattle.std.specs.Prelude.{◌≡◌};
ghost use Rattle.oa_text.specs.Written.{Writes};
ghost use Rattle.oa_text.specs.Causes.{HasCause};
ghost use Rattle.oax_cli.specs.Telling.{IsSaid, breach_line, stop_line, fault_line, shape_fault_line, op_name, method_word, refusal_line, text_for, ending_for};

use crate::ending::Ending;
use crate::verdict::Verdict;
use line_words::fault::ParseFault;
use norm_check::Refusal;
use norm_lang::text::Text;
use oa_text::{Failed, Piece, Sink, write_all, write_pieces};
use proper_judge::{Breach, breach_number};

const HELP: &[u8] =
    b"usage: oax proper < CERTIFICATE\n  proper  say whether a certificate's run shows that its text isn't proper\nSee docs/man/oax.1.\n";

/// Writes the line that tells a breach.
fn write_breach<K: Sink>(out: &mut K, breach: Breach, at: u64) -> Result<(), Failed>
    ensures bytes { Writes (K.written out.old) (K.written out.new) (breach_line breach at) result }
    ensures cause { HasCause (K.faults out.old) (K.faults out.new) result }
{
    write_pieces(
        out,
        &[
            Piece::Bytes(b"improper "),
            Piece::Number(breach_number(breach) as u64),
            Piece::Bytes(b" at "),
            Piece::Number(at),
            Piece::Bytes(b"\n"),
        ],
    )
}

/// Writes the line that tells an event that isn't enabled.
fn write_stop<K: Sink>(out: &mut K, at: u64) -> Result<(), Failed>
    ensures bytes { Writes (K.written out.old) (K.written out.new) (stop_line at) result }
    ensures cause { HasCause (K.faults out.old) (K.faults out.new) result }
{
    write_pieces(
        out,
        &[
            Piece::Bytes(b"rejected 1 at "),
            Piece::Number(at),
            Piece::Bytes(b"\n"),
        ],
    )
}

/// The name of an operation, by its number.
fn op_name(text: &Text, number: u8) -> &[u8]
    ensures { result.now ≡ op_name text.now number }
{
    match text.ops.items().get(number as usize) {
        None => b"",
        Some(op) => op.name.items(),
    }
}

/// The word for a method, as it stands between a name and a number.
fn method_word(wrapup: bool) -> &'static [u8]
    ensures { result.now ≡ method_word wrapup }
{
    if wrapup { b" wrap " } else { b" gen " }
}

/// Writes the line that tells a fault.
fn write_fault<K: Sink>(out: &mut K, fault: ParseFault) -> Result<(), Failed>
    ensures bytes { Writes (K.written out.old) (K.written out.new) (fault_line fault) result }
    ensures cause { HasCause (K.faults out.old) (K.faults out.new) result }
{
    write_pieces(
        out,
        &[
            Piece::Bytes(b"line "),
            Piece::Number(fault.line as u64),
            Piece::Bytes(b" fault "),
            Piece::Number(fault.number as u64),
            Piece::Bytes(b"\n"),
        ],
    )
}

/// Writes the line that tells why a text is refused.
fn write_refusal<K: Sink>(out: &mut K, text: &Text, refusal: Refusal) -> Result<(), Failed>
    ensures bytes { Writes (K.written out.old) (K.written out.new) (refusal_line text.now refusal) result }
    ensures cause { HasCause (K.faults out.old) (K.faults out.new) result }
{
    write_pieces(
        out,
        &[
            Piece::Bytes(b"refused N"),
            Piece::Number(refusal.rule as u64),
            Piece::Bytes(b" op "),
            Piece::Bytes(op_name(text, refusal.op)),
            Piece::Bytes(method_word(refusal.wrapup)),
            Piece::Number(refusal.at as u64),
            Piece::Bytes(b"\n"),
        ],
    )
}

/// Writes the line that tells what is wrong with a document's shape.
fn write_shape<K: Sink>(out: &mut K, number: u8, at: u64) -> Result<(), Failed>
    ensures bytes { Writes (K.written out.old) (K.written out.new) (shape_fault_line number at) result }
    ensures cause { HasCause (K.faults out.old) (K.faults out.new) result }
{
    write_pieces(
        out,
        &[
            Piece::Bytes(b"shape "),
            Piece::Number(number as u64),
            Piece::Bytes(b" at "),
            Piece::Number(at),
            Piece::Bytes(b"\n"),
        ],
    )
}

/// Writes the text of a verdict.
fn write_verdict<K: Sink>(out: &mut K, verdict: &Verdict) -> Result<(), Failed>
    ensures bytes { Writes (K.written out.old) (K.written out.new) (text_for verdict.now) result }
    ensures cause { HasCause (K.faults out.old) (K.faults out.new) result }
{
    match verdict {
        Verdict::Proper => write_pieces(out, &[Piece::Bytes(b"proper so far\n")]),
        Verdict::Improper { breach, at, .. } => write_breach(out, *breach, *at),
        Verdict::NotEnabled { at, .. } => write_stop(out, *at),
        Verdict::Help => write_all(out, HELP),
        Verdict::Version => write_pieces(out, &[Piece::Bytes(b"oax 1\n")]),
        Verdict::Usage => write_pieces(out, &[Piece::Bytes(b"usage\n")]),
        Verdict::ReadFault => write_pieces(out, &[Piece::Bytes(b"read fault\n")]),
        Verdict::LongInput => write_pieces(out, &[Piece::Bytes(b"long input\n")]),
        Verdict::BadCertificate(fault) => write_fault(out, *fault),
        Verdict::Refused(text, refusal) => write_refusal(out, text, *refusal),
        Verdict::BadShape { number, at } => write_shape(out, *number, *at),
        Verdict::Memory => write_pieces(out, &[Piece::Bytes(b"memory\n")]),
    }
}

/// How a command with a verdict ends.
fn ending_of(verdict: &Verdict) -> Ending
    ensures { result ≡ ending_for verdict.now }
{
    match verdict {
        Verdict::Proper | Verdict::Help | Verdict::Version => Ending::Done,
        Verdict::Improper { .. } | Verdict::NotEnabled { .. } => Ending::Found,
        Verdict::Usage => Ending::Usage,
        Verdict::ReadFault => Ending::ReadFault,
        Verdict::LongInput => Ending::LongInput,
        Verdict::BadCertificate(fault) => Ending::BadCertificate {
            line: fault.line,
            fault: fault.number,
        },
        Verdict::Refused(_, refusal) => Ending::Refused { refusal: *refusal },
        Verdict::BadShape { number, at } => Ending::BadShape {
            number: *number,
            at: *at,
        },
        Verdict::Memory => Ending::Memory,
    }
}

/// Writes the text of a verdict, and answers how the command ends.
pub(crate) fn say<K: Sink>(out: &mut K, verdict: &Verdict) -> Ending
    ensures { IsSaid (K.written out.old) (K.written out.new) (K.faults out.old) (K.faults out.new) (text_for verdict.now) (ending_for verdict.now) result }
{
    if write_verdict(out, verdict).is_err() {
        return Ending::WriteFault;
    }
    ending_of(verdict)
}
