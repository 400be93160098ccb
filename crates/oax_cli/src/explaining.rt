//! Messages for a person, on standard error.

ghost use Rattle.std.specs.Prelude.{◌<◌, ◌≤◌, length};
ghost use Rattle.statuses.specs.declared.limits.TheConstants.{CERTIFICATE_LIMIT};

use crate::ending::Ending;
use crate::paths::write_path;
use crate::top::Outcome;
use crate::verdict::Verdict;
use message_lines::lines::{instruction_line, line_beginning};
use messages::RememberingSource;
use norm_check::Normal;
use norm_lang::list::Listed;
use norm_lang::text::ByteText;
use oa_text::{Failed, MemorySink, Piece, Sink, Source, write_all, write_pieces};
use proper_judge::{Breach, Trace, trace_breach};
use renamed_messages::explain_renamed;
use source_machine::SourceEvent;
use statuses::Status;
use std::alloc::Global;

const USAGE: &[u8] =
    b"oax: usage: oax proper < CERTIFICATE\n  proper  say whether a certificate's run shows that its text isn't proper\n`oax --help` and docs/man/oax.1 say more.\n";

const LONG_INPUT: &[u8] =
    b"oax: the input is longer than 268435456 bytes, the most that a certificate may have. Make a certificate of fewer calls.\n";

const MEMORY: &[u8] =
    b"oax: memory ran out before there was an answer. A certificate of fewer events needs less.\n";

/// The number of the line that tells an event, by the event's place, from 0. Only lines behind `events` that say something count.
fn event_line(bytes: &[u8], at: u64) -> Option<u32>
    requires { length bytes.now < CERTIFICATE_LIMIT }
{
    let schedule = line_beginning(bytes, 0, b"schedule", 0)?;
    let events = line_beginning(bytes, schedule.number(), b"events", 0)?;
    let line = instruction_line(bytes, events.number(), at as usize)?;
    Some(line.number())
}

/// Writes where an event stands.
fn write_place<K: Sink>(out: &mut K, line: Option<u32>, at: u64) -> Result<(), Failed> {
    match line {
        Some(line) => write_pieces(
            out,
            &[
                Piece::Bytes(b"oax: line "),
                Piece::Number(line as u64),
                Piece::Bytes(b": "),
            ],
        ),
        None => write_pieces(
            out,
            &[
                Piece::Bytes(b"oax: event "),
                Piece::Number(at),
                Piece::Bytes(b": "),
            ],
        ),
    }
}

/// Writes what is broken, up to the way that leads there.
fn write_what<K: Sink>(out: &mut K, breach: Breach, last: u64) -> Result<(), Failed> {
    match breach {
        Breach::Twice => write_pieces(
            out,
            &[
                Piece::Bytes(b"node "),
                Piece::Number(last),
                Piece::Bytes(b" is retired a second time"),
            ],
        ),
        Breach::Root { name } => write_pieces(
            out,
            &[
                Piece::Bytes(b"node "),
                Piece::Number(name),
                Piece::Bytes(b" was retired, and a root leads to it: "),
            ],
        ),
        Breach::Got { caller, name } => write_pieces(
            out,
            &[
                Piece::Bytes(b"node "),
                Piece::Number(name),
                Piece::Bytes(b" was retired before the method run of caller "),
                Piece::Number(caller as u64),
                Piece::Bytes(b" began, which has got it: "),
            ],
        ),
    }
}

/// The name to which the way leads, 0 if there is none.
fn last_of(trace: &Trace) -> u64 {
    trace.names.items().last().copied().unwrap_or(0)
}

/// Writes the message on a breach.
fn write_breach<K: Sink>(
    out: &mut K,
    normal: &Normal,
    line: Option<u32>,
    at: u64,
    breach: Breach,
    trace: &Trace,
) -> Result<(), Failed> {
    write_place(out, line, at)?;
    write_what(out, breach, last_of(trace))?;
    if !matches!(breach, Breach::Twice) {
        write_path(out, normal.text(), trace)?;
    }
    write_all(out, b"\n")
}

/// What a sink in memory has taken, or nothing if a write failed.
fn taken(alloc: Global, sink: &MemorySink, wrote: Result<(), Failed>) -> ByteText {
    match wrote {
        Err(_) => Listed::empty(alloc),
        Ok(()) => match Listed::from_slice(alloc, sink.bytes()) {
            Ok(message) => message,
            Err(_) => Listed::empty(alloc),
        },
    }
}

/// The message on a breach after the event at a place, of a certificate that was read of these bytes; nothing if memory runs out.
pub(crate) fn breach_message(
    alloc: Global,
    bytes: &[u8],
    normal: &Normal,
    callers: u32,
    events: &[SourceEvent],
    breach: Breach,
    at: u64,
) -> ByteText
    requires short { length bytes.now < CERTIFICATE_LIMIT }
    requires some { 1 ≤ callers }
{
    let mut sink = MemorySink::new(alloc, usize::MAX, Vec::new(alloc));
    let line = event_line(bytes, at);
    match trace_breach(alloc, normal, callers, events, at, breach) {
        Err(_) => Listed::empty(alloc),
        Ok(trace) => {
            let wrote = write_breach(&mut sink, normal, line, at, breach, &trace);
            taken(alloc, &sink, wrote)
        }
    }
}

/// Writes the message on an event that isn't enabled.
fn write_stop<K: Sink>(out: &mut K, line: Option<u32>, at: u64) -> Result<(), Failed> {
    write_place(out, line, at)?;
    write_all(
        out,
        b"this event is not enabled: no run of the text can make it after the events above it. Those events are a proper run. If `oa judge make` wrote this certificate, the text is not proper.\n",
    )
}

/// The message on an event that isn't enabled, at a place; nothing if memory runs out.
pub(crate) fn stop_message(alloc: Global, bytes: &[u8], at: u64) -> ByteText
    requires { length bytes.now < CERTIFICATE_LIMIT }
{
    let mut sink = MemorySink::new(alloc, usize::MAX, Vec::new(alloc));
    let wrote = write_stop(&mut sink, event_line(bytes, at), at);
    taken(alloc, &sink, wrote)
}

/// Writes what `oa` says on a status, in the name of `oax`.
fn explain_status<K: Sink, S: Source>(
    alloc: Global,
    errors: &mut K,
    input: &RememberingSource<S>,
    status: Status,
) -> Result<(), Failed> {
    explain_renamed(alloc, errors, b"oax", input, status)
}

/// The message that a verdict has.
fn message_of(verdict: &Verdict) -> &[u8] {
    match verdict {
        Verdict::Improper { message, .. } => message.items(),
        Verdict::NotEnabled { message, .. } => message.items(),
        _ => b"",
    }
}

/// Writes the message on what became of a command; there is none if all went well.
pub fn explain<K: Sink, S: Source>(
    alloc: Global,
    errors: &mut K,
    input: &RememberingSource<S>,
    outcome: &Outcome,
) -> Result<(), Failed> {
    match outcome.ending {
        Ending::Done => Ok(()),
        Ending::Found => write_all(errors, message_of(&outcome.verdict)),
        Ending::Usage => write_all(errors, USAGE),
        Ending::LongInput => write_all(errors, LONG_INPUT),
        Ending::Memory => write_all(errors, MEMORY),
        Ending::ReadFault => explain_status(alloc, errors, input, Status::ReadFault),
        Ending::WriteFault => explain_status(alloc, errors, input, Status::WriteFault),
        Ending::BadCertificate { line, fault } => {
            explain_status(alloc, errors, input, Status::BadDocument { line, fault })
        }
        Ending::Refused { refusal } => {
            explain_status(alloc, errors, input, Status::Refused { refusal })
        }
        Ending::BadShape { number, at } => {
            explain_status(alloc, errors, input, Status::BadShape { number, at })
        }
    }
}
