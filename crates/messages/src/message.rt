//! The message on a status, for a person who reads it beside what was read.

ghost use Rattle.std.specs.Prelude.{◌+◌, ◌<◌, ◌≤◌, ◌^◌, length, Some};
ghost use Rattle.oa_text.specs.Causes.{HasCause};
ghost use Rattle.oa_text.specs.Lines.{lines_of};
ghost use Rattle.oa_text.specs.Shown.{line_shown};
ghost use Rattle.oa_text.specs.Written.{Writes};
ghost use Rattle.count_messages.specs.Stray.{stray_word};
ghost use Rattle.messages.specs.Faults.{odd_byte};
ghost use Rattle.messages.specs.Messages.{byte_message, stray_message, unknown_message, fault_at_message, fault_message, refusal_message, shape_at_message, turn_found, turn_message, shape_message, message_of, message_for};
ghost use Rattle.refusal_messages.specs.declared.named.Blame.{Blame};
ghost use Rattle.refusal_messages.specs.Named.{IsNamedFor};
ghost use Rattle.messages.specs.Remembered.{most_remembered, remembered};
ghost use Rattle.messages.specs.Turns.{stopped_line};

use crate::faults::{NamedWord, named_word, odd_byte, write_byte, write_repeated, write_unknown};
use crate::owed::{explain_end, explain_misplaced, owed_at};
use crate::remembering::RememberingSource;
use crate::shapes::{shape_line, write_arguments, write_shape_at};
use crate::turns::{StoppedTurn, stopped_line, write_turn, write_unfound};
use count_messages::{stray_word, write_passed};
use message_lines::lines::{numbered_line, op_line};
use message_lines::words::word_at;
use oa_text::{Failed, Line, Sink, Source};
use refusal_messages::{Blame, named_for, refused_lines, write_refused};
use statuses::{Refusal, Status, explain};
use std::alloc::Global;

/// Writes which initial node a line names that doesn't exist, or else the sentence on its fault alone.
fn explain_stray<K: Sink>(
    errors: &mut K,
    bytes: &[u8],
    line: Line,
    number: u32,
) -> Result<(), Failed>
    requires { length (lines_of bytes.now) + 1 < 2 ^ 32 }
    ensures bytes { Writes (K.written errors.old) (K.written errors.new) (stray_message (stray_word bytes.now (line_shown line.entry)) (line_shown line.entry) number) result }
    ensures cause { HasCause (K.faults errors.old) (K.faults errors.new) result }
{
    match stray_word(bytes, line) {
        Some(word) => write_unknown(errors, line, b"initial node", word),
        None => explain(
            errors,
            Status::BadDocument {
                line: number,
                fault: 5,
            },
        ),
    }
}

/// Writes what a line names that isn't declared.
fn explain_unknown<K: Sink>(
    errors: &mut K,
    bytes: &[u8],
    line: Line,
    named: NamedWord,
    number: u32,
) -> Result<(), Failed>
    requires { length (lines_of bytes.now) + 1 < 2 ^ 32 }
    ensures bytes { Writes (K.written errors.old) (K.written errors.new) (unknown_message bytes.now (line_shown line.entry) named number) result }
    ensures cause { HasCause (K.faults errors.old) (K.faults errors.new) result }
{
    match named {
        NamedWord::Field(at) => write_unknown(errors, line, b"field", word_at(line, at)),
        NamedWord::Root(at) => write_unknown(errors, line, b"root", word_at(line, at)),
        NamedWord::Kind(at) => write_unknown(errors, line, b"kind", word_at(line, at)),
        NamedWord::Node(at) => write_unknown(errors, line, b"initial node", word_at(line, at)),
        NamedWord::Operation(at) => write_unknown(errors, line, b"operation", word_at(line, at)),
        NamedWord::Unknown => explain_stray(errors, bytes, line, number),
    }
}

/// Writes which byte of a line may not stand there, or else the sentence on its fault alone.
fn explain_byte<K: Sink>(errors: &mut K, line: Line, number: u32) -> Result<(), Failed>
    ensures bytes { Writes (K.written errors.old) (K.written errors.new) (byte_message (odd_byte (line_shown line.entry)) (line_shown line.entry) number) result }
    ensures cause { HasCause (K.faults errors.old) (K.faults errors.new) result }
{
    match odd_byte(line) {
        Some(odd) => write_byte(errors, line, odd),
        None => explain(
            errors,
            Status::BadDocument {
                line: number,
                fault: 1,
            },
        ),
    }
}

/// Writes what is wrong with a line that was read.
fn explain_fault_at<K: Sink>(
    errors: &mut K,
    bytes: &[u8],
    line: Line,
    number: u32,
    fault: u8,
) -> Result<(), Failed>
    requires { length (lines_of bytes.now) + 1 < 2 ^ 32 }
    ensures bytes { Writes (K.written errors.old) (K.written errors.new) (fault_at_message bytes.now (line_shown line.entry) number fault) result }
    ensures cause { HasCause (K.faults errors.old) (K.faults errors.new) result }
{
    if fault == 1 {
        explain_byte(errors, line, number)
    } else if fault == 4 {
        explain_misplaced(errors, bytes, line)
    } else if fault == 5 {
        explain_unknown(errors, bytes, line, named_word(bytes, line), number)
    } else if fault == 6 {
        write_repeated(errors, line)
    } else if fault == 7 {
        write_passed(errors, bytes, line)
    } else {
        explain(
            errors,
            Status::BadDocument {
                line: number,
                fault,
            },
        )
    }
}

/// Writes what is wrong with a document.
fn explain_fault<K: Sink>(
    errors: &mut K,
    bytes: &[u8],
    number: u32,
    fault: u8,
) -> Result<(), Failed>
    requires { length (lines_of bytes.now) + 1 < 2 ^ 32 }
    ensures bytes { Writes (K.written errors.old) (K.written errors.new) (fault_message bytes.now number fault) result }
    ensures cause { HasCause (K.faults errors.old) (K.faults errors.new) result }
{
    match numbered_line(bytes, number as u64) {
        Some(line) => explain_fault_at(errors, bytes, line, number, fault),
        None if fault == 4 => explain_end(errors, number, owed_at(bytes, number)),
        None => explain(
            errors,
            Status::BadDocument {
                line: number,
                fault,
            },
        ),
    }
}

/// Writes which rule is broken, and where.
fn explain_refusal<K: Sink>(
    errors: &mut K,
    bytes: &[u8],
    refusal: Refusal,
    named: Blame,
) -> Result<(), Failed>
    requires { length (lines_of bytes.now) + 1 < 2 ^ 32 }
    ensures bytes { Writes (K.written errors.old) (K.written errors.new) (refusal_message bytes.now refusal named) result }
    ensures cause { HasCause (K.faults errors.old) (K.faults errors.new) result }
{
    match refused_lines(bytes, refusal) {
        Some(found) => write_refused(errors, found, refusal, named),
        None => explain(errors, Status::Refused { refusal }),
    }
}

/// Writes with which line a document can't be run.
fn explain_shape_at<K: Sink>(
    errors: &mut K,
    bytes: &[u8],
    line: Line,
    number: u8,
) -> Result<(), Failed>
    requires { length (lines_of bytes.now) + 1 < 2 ^ 32 }
    ensures bytes { Writes (K.written errors.old) (K.written errors.new) (shape_at_message bytes.now (line_shown line.entry) number) result }
    ensures cause { HasCause (K.faults errors.old) (K.faults errors.new) result }
{
    if number == 9 {
        match op_line(bytes, word_at(line, 0)) {
            Some(op) => write_arguments(errors, line, op),
            None => write_shape_at(errors, line, number),
        }
    } else {
        write_shape_at(errors, line, number)
    }
}

/// Writes at which turn a replay stopped that made so many turns whole, and so many steps.
fn explain_turn_after<K: Sink>(
    errors: &mut K,
    bytes: &[u8],
    whole: usize,
    steps: u64,
) -> Result<(), Failed>
    requires { length (lines_of bytes.now) + 1 < 2 ^ 32 }
    ensures bytes { Writes (K.written errors.old) (K.written errors.new) (turn_found (stopped_line bytes.now whole) steps) result }
    ensures cause { HasCause (K.faults errors.old) (K.faults errors.new) result }
{
    match stopped_line(bytes, whole) {
        Some(line) => write_turn(errors, line, steps),
        None => explain(
            errors,
            Status::BadShape {
                number: 10,
                at: steps,
            },
        ),
    }
}

/// Writes at which turn a replay stopped after so many steps.
fn explain_turn<K: Sink>(
    errors: &mut K,
    bytes: &[u8],
    turn: StoppedTurn,
    steps: u64,
) -> Result<(), Failed>
    requires { length (lines_of bytes.now) + 1 < 2 ^ 32 }
    ensures bytes { Writes (K.written errors.old) (K.written errors.new) (turn_message bytes.now turn steps) result }
    ensures cause { HasCause (K.faults errors.old) (K.faults errors.new) result }
{
    match turn {
        StoppedTurn::After(whole) => explain_turn_after(errors, bytes, whole, steps),
        StoppedTurn::NoMemory => write_unfound(errors, steps),
        StoppedTurn::Nowhere => explain(
            errors,
            Status::BadShape {
                number: 10,
                at: steps,
            },
        ),
    }
}

/// Writes why a document can't be run.
fn explain_shape<K: Sink>(
    errors: &mut K,
    bytes: &[u8],
    number: u8,
    at: u64,
    turn: StoppedTurn,
) -> Result<(), Failed>
    requires { length (lines_of bytes.now) + 1 < 2 ^ 32 }
    ensures bytes { Writes (K.written errors.old) (K.written errors.new) (shape_message bytes.now number at turn) result }
    ensures cause { HasCause (K.faults errors.old) (K.faults errors.new) result }
{
    if number == 10 {
        return explain_turn(errors, bytes, turn, at);
    }
    match shape_line(bytes, number, at) {
        Some(line) => explain_shape_at(errors, bytes, line, number),
        None => explain(errors, Status::BadShape { number, at }),
    }
}

/// Writes the message on a status, if these bytes were read, this register is named, and a replay stopped at this turn.
fn explain_of<K: Sink>(
    errors: &mut K,
    bytes: &[u8],
    status: Status,
    named: Blame,
    turn: StoppedTurn,
) -> Result<(), Failed>
    requires { length bytes.now ≤ most_remembered }
    ensures bytes { Writes (K.written errors.old) (K.written errors.new) (message_of bytes.now status named turn) result }
    ensures cause { HasCause (K.faults errors.old) (K.faults errors.new) result }
{
    match status {
        Status::BadDocument { line, fault } => explain_fault(errors, bytes, line, fault),
        Status::Refused { refusal } => explain_refusal(errors, bytes, refusal, named),
        Status::BadShape { number, at } => explain_shape(errors, bytes, number, at, turn),
        Status::Done
        | Status::Partial
        | Status::Usage
        | Status::ReadFault
        | Status::LongInput
        | Status::WriteFault
        | Status::Memory
        | Status::Rejected { .. } => explain(errors, status),
    }
}

/// The register that the message on a status names, if these bytes were read.
fn named_in(alloc: Global, bytes: &[u8], status: Status) -> Blame
    requires { length bytes.now ≤ most_remembered }
    ensures { IsNamedFor (Some bytes.now) status result }
{
    named_for(alloc, bytes, status)
}

/// The same of what a source remembers.
fn named_of<S: Source>(alloc: Global, input: &RememberingSource<S>, status: Status) -> Blame
    ensures { IsNamedFor (remembered input.now) status result }
{
    match input.bytes() {
        Some(bytes) => named_in(alloc, bytes, status),
        None => Blame::Found(None),
    }
}

/// As `explain_of`, of what a source remembers; if that is forgotten, the sentence on the status alone.
fn explain_named<K: Sink, S: Source>(
    errors: &mut K,
    input: &RememberingSource<S>,
    status: Status,
    named: Blame,
    turn: StoppedTurn,
) -> Result<(), Failed>
    ensures bytes { Writes (K.written errors.old) (K.written errors.new) (message_for (remembered input.now) status named turn) result }
    ensures cause { HasCause (K.faults errors.old) (K.faults errors.new) result }
{
    match input.bytes() {
        Some(bytes) => explain_of(errors, bytes, status, named, turn),
        None => explain(errors, status),
    }
}

/// Writes the message on a status: if the source remembers what was read, what the status means, which line is at fault, and how to
/// mend it; if that is forgotten, the sentence on the status alone. If all went well, there is none. If a rule is broken, the first
/// register that is at fault is named, and if a replay stopped at a turn, that turn; if there was no memory to find the register or
/// the turn, the message says so.
///
/// # Errors
///
/// `Failed` if a write fails: a prefix of the message was written then.
pub fn explain_read<K: Sink, S: Source>(
    alloc: Global,
    errors: &mut K,
    input: &RememberingSource<S>,
    status: Status,
    turn: StoppedTurn,
) -> Result<(), Failed>
    ensures bytes { (named : Blame) × IsNamedFor (remembered input.now) status named × Writes (K.written errors.old) (K.written errors.new) (message_for (remembered input.now) status named turn) result }
    ensures cause { HasCause (K.faults errors.old) (K.faults errors.new) result }
{
    let named = named_of(alloc, input, status);
    explain_named(errors, input, status, named, turn)
}
