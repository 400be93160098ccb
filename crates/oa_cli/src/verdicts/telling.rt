//! What is written of a verdict, and its status.

ghost use Rattle.std.specs.Prelude.{◌≡◌};
ghost use Rattle.oa_text.specs.Written.{Writes};
ghost use Rattle.oa_text.specs.Causes.{HasCause};
ghost use Rattle.oa_cli.specs.verdicts.Refusals.{op_name, method_word, refusal_line};
ghost use Rattle.oa_cli.specs.verdicts.Telling.{IsSaid, fault_line, shape_fault_line, rejection_line, text_for, status_if, status_for};

use crate::verdicts::verdict::Verdict;
use line_words::fault::ParseFault;
use norm_check::Refusal;
use norm_lang::text::Text;
use oa_text::{Failed, Piece, Sink, write_all, write_pieces};
use script_driver::{is_partial, is_short, show_report, show_workload};
use statuses::Status;

/// The name of an operation, by its number.
fn op_name(text: &Text, number: u8) -> &[u8]
    ensures { result.now ≡ op_name text.now number }
{
    match text.ops.items().get(number as usize) {
        None => b"",
        Some(op) => op.name.items(),
    }
}

/// The word for a method, as it stands between a name and a number.
fn method_word(wrapup: bool) -> &'static [u8]
    ensures { result.now ≡ method_word wrapup }
{
    if wrapup { b" wrap " } else { b" gen " }
}

/// Writes the line that tells a fault.
fn write_fault<K: Sink>(out: &mut K, fault: ParseFault) -> Result<(), Failed>
    ensures bytes { Writes (K.written out.old) (K.written out.new) (fault_line fault) result }
    ensures cause { HasCause (K.faults out.old) (K.faults out.new) result }
{
    write_pieces(
        out,
        &[
            Piece::Bytes(b"line "),
            Piece::Number(fault.line as u64),
            Piece::Bytes(b" fault "),
            Piece::Number(fault.number as u64),
            Piece::Bytes(b"\n"),
        ],
    )
}

/// Writes the line that tells why a text is refused.
fn write_refusal<K: Sink>(out: &mut K, text: &Text, refusal: Refusal) -> Result<(), Failed>
    ensures bytes { Writes (K.written out.old) (K.written out.new) (refusal_line text.now refusal) result }
    ensures cause { HasCause (K.faults out.old) (K.faults out.new) result }
{
    write_pieces(
        out,
        &[
            Piece::Bytes(b"refused N"),
            Piece::Number(refusal.rule as u64),
            Piece::Bytes(b" op "),
            Piece::Bytes(op_name(text, refusal.op)),
            Piece::Bytes(method_word(refusal.wrapup)),
            Piece::Number(refusal.at as u64),
            Piece::Bytes(b"\n"),
        ],
    )
}

/// Writes the line that tells what is wrong with a document's shape.
fn write_shape<K: Sink>(out: &mut K, number: u8, at: u64) -> Result<(), Failed>
    ensures bytes { Writes (K.written out.old) (K.written out.new) (shape_fault_line number at) result }
    ensures cause { HasCause (K.faults out.old) (K.faults out.new) result }
{
    write_pieces(
        out,
        &[
            Piece::Bytes(b"shape "),
            Piece::Number(number as u64),
            Piece::Bytes(b" at "),
            Piece::Number(at),
            Piece::Bytes(b"\n"),
        ],
    )
}

/// Writes the line that tells why a certificate is rejected.
fn write_rejection<K: Sink>(out: &mut K, number: u8, at: u64) -> Result<(), Failed>
    ensures bytes { Writes (K.written out.old) (K.written out.new) (rejection_line number at) result }
    ensures cause { HasCause (K.faults out.old) (K.faults out.new) result }
{
    write_pieces(
        out,
        &[
            Piece::Bytes(b"rejected "),
            Piece::Number(number as u64),
            Piece::Bytes(b" at "),
            Piece::Number(at),
            Piece::Bytes(b"\n"),
        ],
    )
}

/// Writes the text of a verdict.
fn write_verdict<K: Sink>(out: &mut K, verdict: &Verdict) -> Result<(), Failed>
    ensures bytes { Writes (K.written out.old) (K.written out.new) (text_for verdict.now) result }
    ensures cause { HasCause (K.faults out.old) (K.faults out.new) result }
{
    match verdict {
        Verdict::Answered(report) => show_report(report, out),
        Verdict::Worked(report) => show_workload(report, out),
        Verdict::Accepted => write_pieces(out, &[Piece::Bytes(b"accepted\n")]),
        Verdict::Shown(spelling) | Verdict::Compiled(spelling) => write_all(out, spelling.items()),
        Verdict::Certified { spelling, .. } => write_all(out, spelling.items()),
        Verdict::Usage => write_pieces(out, &[Piece::Bytes(b"usage\n")]),
        Verdict::ReadFault => write_pieces(out, &[Piece::Bytes(b"read fault\n")]),
        Verdict::LongInput => write_pieces(out, &[Piece::Bytes(b"long input\n")]),
        Verdict::BadDocument(fault) => write_fault(out, *fault),
        Verdict::Refused(text, refusal) => write_refusal(out, text, *refusal),
        Verdict::BadShape { number, at } => write_shape(out, *number, *at),
        Verdict::Memory => write_pieces(out, &[Piece::Bytes(b"memory\n")]),
        Verdict::Rejected { number, at } => write_rejection(out, *number, *at),
    }
}

/// The status of answers, of which some are short or none is.
fn status_if(short: bool) -> Status
    ensures { result ≡ status_if short }
{
    if short { Status::Partial } else { Status::Done }
}

fn status_of(verdict: &Verdict) -> Status
    ensures { result ≡ status_for verdict.now }
{
    match verdict {
        Verdict::Answered(report) => status_if(is_partial(report)),
        Verdict::Worked(report) => status_if(is_short(report)),
        Verdict::Certified { partial, .. } => status_if(*partial),
        Verdict::Accepted | Verdict::Shown(_) | Verdict::Compiled(_) => Status::Done,
        Verdict::Usage => Status::Usage,
        Verdict::ReadFault => Status::ReadFault,
        Verdict::LongInput => Status::LongInput,
        Verdict::BadDocument(fault) => Status::BadDocument {
            line: fault.line,
            fault: fault.number,
        },
        Verdict::Refused(_, refusal) => Status::Refused { refusal: *refusal },
        Verdict::BadShape { number, at } => Status::BadShape {
            number: *number,
            at: *at,
        },
        Verdict::Memory => Status::Memory,
        Verdict::Rejected { number, at } => Status::Rejected {
            number: *number,
            at: *at,
        },
    }
}

/// Writes the text of a verdict, and answers its status.
pub fn say<K: Sink>(out: &mut K, verdict: &Verdict) -> Status
    ensures { IsSaid (K.written out.old) (K.written out.new) (K.faults out.old) (K.faults out.new) (text_for verdict.now) (status_for verdict.now) result }
{
    if write_verdict(out, verdict).is_err() {
        return Status::WriteFault;
    }
    status_of(verdict)
}
