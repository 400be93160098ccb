//! Which limit a line passes, and the sentence on it.

ghost use Rattle.std.specs.Prelude.{◌≡◌, ◌+◌, ◌<◌, ◌^◌, length};
ghost use Rattle.oa_text.specs.Causes.{HasCause};
ghost use Rattle.oa_text.specs.Lines.{lines_of};
ghost use Rattle.oa_text.specs.Shown.{line_shown};
ghost use Rattle.oa_text.specs.Written.{Writes};
ghost use Rattle.message_lines.specs.Places.{begins_after, line_that};
ghost use Rattle.count_messages.specs.Passed.{is_greater, limit_at, count_place, turn_limit, target_limit, instruction_limit, op_limit, text_limit, stands_below, limit_passed, passed_sentence};

use documents::limits::{MOST_CALLER, MOST_COUNT};
use message_lines::lines::{begins, line_beginning};
use message_lines::words::{trimmed, word_at};
use message_words::{Limit, limit_words};
use norm_lang::limits::{LAST_TARGET, MOST_ENTRIES, MOST_OPS, MOST_PICKED};
use oa_text::{Failed, Line, Piece, Sink, read_numeral, write_pieces};

/// Whether a number that is said is greater than another.
fn greater(said: Option<Option<u64>>, most: u64) -> bool
    ensures { result ≡ is_greater most said }
{
    match said {
        None => false,
        Some(None) => true,
        Some(Some(number)) => most < number,
    }
}

/// A limit, if the number at a place of a line passes it, or else another.
fn limit_at(line: Line, at: usize, most: u64, limit: Limit, other: Limit) -> Limit
    ensures { result ≡ limit_at (line_shown line.entry) at most limit other }
{
    if greater(read_numeral(word_at(line, at)), most) {
        limit
    } else {
        other
    }
}

/// The place of the count in a turn.
fn count_place(line: Line) -> usize
    ensures { result ≡ count_place (line_shown line.entry) }
{
    if begins(line, b"upto") { 3 } else { 2 }
}

/// Which limit a turn passes, or a line of a certificate behind the schedule.
fn turn_limit(line: Line) -> Limit
    ensures { result ≡ turn_limit (line_shown line.entry) }
{
    let count = limit_at(
        line,
        count_place(line),
        MOST_COUNT,
        Limit::Counts,
        Limit::Turns,
    );
    limit_at(line, 1, MOST_CALLER, Limit::Callers, count)
}

/// Which limit an instruction passes that names another at a place.
fn target_limit(line: Line, at: usize) -> Limit
    ensures { result ≡ target_limit (line_shown line.entry) at }
{
    limit_at(line, at, LAST_TARGET, Limit::Targets, Limit::Instructions)
}

/// Which limit an instruction passes.
fn instruction_limit(line: Line) -> Limit
    ensures { result ≡ instruction_limit (line_shown line.entry) }
{
    if begins(line, b"new") {
        Limit::News
    } else if begins(line, b"pick") {
        limit_at(line, 3, MOST_PICKED, Limit::Picked, Limit::Instructions)
    } else if begins(line, b"commit") {
        limit_at(line, 1, MOST_ENTRIES, Limit::Entries, Limit::Instructions)
    } else if begins(line, b"jump") {
        target_limit(line, 1)
    } else if begins(line, b"ifmarked") {
        target_limit(line, 2)
    } else if begins(line, b"ifeq") || begins(line, b"ifless") {
        target_limit(line, 3)
    } else if begins(line, b"casroot") {
        target_limit(line, 4)
    } else if begins(line, b"cas") {
        target_limit(line, 5)
    } else {
        Limit::Instructions
    }
}

/// Which limit the line of an operation passes, by the lines with that number and above.
fn op_limit(bytes: &[u8], line: Line) -> Limit
    requires { length (lines_of bytes.now) + 1 < 2 ^ 32 }
    ensures { result ≡ op_limit bytes.now (line_shown line.entry) }
{
    match line_beginning(bytes, 0, b"op", MOST_OPS) {
        Some(last) if last.number() <= line.number() => Limit::Operations,
        _ => Limit::Arguments,
    }
}

/// Which limit a line of a text passes.
fn text_limit(bytes: &[u8], line: Line) -> Limit
    requires { length (lines_of bytes.now) + 1 < 2 ^ 32 }
    ensures { result ≡ text_limit bytes.now (line_shown line.entry) }
{
    if begins(line, b"kind") {
        Limit::Kinds
    } else if begins(line, b"field") {
        Limit::Fields
    } else if begins(line, b"nodes") {
        Limit::Nodes
    } else if begins(line, b"root") && !word_at(line, 3).is_empty() {
        Limit::Roots
    } else if begins(line, b"use") {
        Limit::Buckets
    } else if begins(line, b"op") {
        op_limit(bytes, line)
    } else {
        instruction_limit(line)
    }
}

/// Whether a line stands below one that begins with a word.
fn stands_below(bytes: &[u8], line: Line, word: &[u8]) -> bool
    requires { length (lines_of bytes.now) + 1 < 2 ^ 32 }
    ensures { result ≡ stands_below (line_that (begins_after 0 word.now) bytes.now 0) (line_shown line.entry) }
{
    match line_beginning(bytes, 0, word, 0) {
        None => false,
        Some(first) => first.number() < line.number(),
    }
}

/// Which limit a line passes, by its words and the lines above it.
fn limit_passed(bytes: &[u8], line: Line) -> Limit
    requires { length (lines_of bytes.now) + 1 < 2 ^ 32 }
    ensures { result ≡ limit_passed bytes.now (line_shown line.entry) }
{
    if stands_below(bytes, line, b"schedule") {
        turn_limit(line)
    } else if stands_below(bytes, line, b"script") {
        if begins(line, b"script") {
            Limit::Scripts
        } else {
            Limit::Calls
        }
    } else {
        text_limit(bytes, line)
    }
}

/// Writes which limit a line passes.
///
/// # Errors
///
/// `Failed` if a write fails: a prefix of the sentence was written then.
pub fn write_passed<K: Sink>(errors: &mut K, bytes: &[u8], line: Line) -> Result<(), Failed>
    requires { length (lines_of bytes.now) + 1 < 2 ^ 32 }
    ensures bytes { Writes (K.written errors.old) (K.written errors.new) (passed_sentence bytes.now (line_shown line.entry)) result }
    ensures cause { HasCause (K.faults errors.old) (K.faults errors.new) result }
{
    write_pieces(
        errors,
        &[
            Piece::Bytes(b"oa: line "),
            Piece::Number(line.number() as u64),
            Piece::Bytes(b" is at fault: it is '"),
            Piece::Bytes(trimmed(line)),
            Piece::Bytes(b"', which passes a limit: "),
            Piece::Bytes(limit_words(limit_passed(bytes, line))),
            Piece::Bytes(b". See 'Faults' in docs/language.md.\n"),
        ],
    )
}
