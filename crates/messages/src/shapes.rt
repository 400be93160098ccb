//! Which line makes a document's shape wrong, and the sentence on it.

ghost use Rattle.std.specs.Prelude.{◌≡◌, ◌+◌, ◌<◌, ◌^◌, length, None, Some, option_map, MatchOption};
ghost use Rattle.oa_text.specs.Causes.{HasCause};
ghost use Rattle.oa_text.specs.Lines.{lines_of};
ghost use Rattle.oa_text.specs.Shown.{line_shown};
ghost use Rattle.oa_text.specs.Written.{Writes};
ghost use Rattle.messages.specs.Shapes.{if_above, slots_line, counted_line, shape_line, shape_hint, shape_at_sentence, arguments_sentence};

use message_lines::lines::{line_beginning, numbered_line, wrong_slots_line};
use message_lines::words::{trimmed, word_at};
use oa_text::{Failed, Line, Piece, Sink, write_pieces};
use statuses::shape_words;

/// A line, if it stands above another, or there is no other.
fn if_above<'a>(other: Option<Line<'a>>, line: Option<Line<'a>>) -> Option<Line<'a>>
    ensures { option_map line_shown result ≡ if_above (option_map line_shown other.entry) (option_map line_shown line.entry) }
{
    match (other, line) {
        (_, None) => None,
        (None, Some(line)) => Some(line),
        (Some(other), Some(line)) => {
            if line.number() < other.number() {
                Some(line)
            } else {
                None
            }
        }
    }
}

/// The first `slots` line above the scripts whose count is out of range, or else the first.
fn slots_line<'a>(bytes: &'a [u8]) -> Option<Line<'a>>
    requires { length (lines_of bytes.now) + 1 < 2 ^ 32 }
    ensures { MatchOption result (slots_line bytes.now ≡ None) (λ line. slots_line bytes.now ≡ Some (line_shown line)) }
{
    match if_above(
        line_beginning(bytes, 0, b"script", 0),
        wrong_slots_line(bytes),
    ) {
        Some(line) => Some(line),
        None => line_beginning(bytes, 0, b"slots", 0),
    }
}

/// The `nodes` line of a kind, by its number, or else the first `slots` line.
fn counted_line<'a>(bytes: &'a [u8], kind: u64) -> Option<Line<'a>>
    requires { length (lines_of bytes.now) + 1 < 2 ^ 32 }
    ensures { MatchOption result (counted_line bytes.now kind ≡ None) (λ line. counted_line bytes.now kind ≡ Some (line_shown line)) }
{
    match line_beginning(bytes, 0, b"nodes", kind as usize) {
        Some(line) => Some(line),
        None => line_beginning(bytes, 0, b"slots", 0),
    }
}

/// The line that makes a document's shape wrong, by what is wrong with it and where that is.
pub(crate) fn shape_line<'a>(bytes: &'a [u8], number: u8, at: u64) -> Option<Line<'a>>
    requires { length (lines_of bytes.now) + 1 < 2 ^ 32 }
    ensures { MatchOption result (shape_line bytes.now number at ≡ None) (λ line. shape_line bytes.now number at ≡ Some (line_shown line)) }
{
    if number == 1 {
        line_beginning(bytes, 0, b"script", 8)
    } else if number == 2 {
        slots_line(bytes)
    } else if number == 5 {
        counted_line(bytes, at)
    } else if number == 6 {
        line_beginning(bytes, 0, b"phases", 0)
    } else if number == 7 {
        line_beginning(bytes, 0, b"fuel", 0)
    } else if number == 8 || number == 9 {
        numbered_line(bytes, at)
    } else {
        None
    }
}

/// What is added if a line of a script is spelled like a setting.
#[tactic(auto, unfolding(crate::specs::Shapes::shape_hint))]
fn shape_hint(number: u8, line: Line) -> &'static [u8]
    ensures { result.now ≡ shape_hint number (line_shown line.entry) }
{
    let word = word_at(line, 0);
    if number == 8
        && (word == b"slots".as_slice()
            || word == b"phases".as_slice()
            || word == b"fuel".as_slice())
    {
        b", and settings stand before the scripts"
    } else {
        b""
    }
}

/// Writes with which line a document can't be run, and why.
pub(crate) fn write_shape_at<K: Sink>(errors: &mut K, line: Line, number: u8) -> Result<(), Failed>
    ensures bytes { Writes (K.written errors.old) (K.written errors.new) (shape_at_sentence (line_shown line.entry) number) result }
    ensures cause { HasCause (K.faults errors.old) (K.faults errors.new) result }
{
    write_pieces(
        errors,
        &[
            Piece::Bytes(b"oa: line "),
            Piece::Number(line.number() as u64),
            Piece::Bytes(b": the document cannot be run with '"),
            Piece::Bytes(trimmed(line)),
            Piece::Bytes(b"': "),
            Piece::Bytes(shape_words(number)),
            Piece::Bytes(shape_hint(number, line)),
            Piece::Bytes(b". See 'What can be run' in docs/language.md.\n"),
        ],
    )
}

/// Writes that a call has another number of arguments than the line of its operation says.
pub(crate) fn write_arguments<'a, K: Sink>(
    errors: &mut K,
    line: Line<'a>,
    op: Line<'a>,
) -> Result<(), Failed>
    ensures bytes { Writes (K.written errors.old) (K.written errors.new) (arguments_sentence (line_shown line.entry) (line_shown op.entry)) result }
    ensures cause { HasCause (K.faults errors.old) (K.faults errors.new) result }
{
    write_pieces(
        errors,
        &[
            Piece::Bytes(b"oa: line "),
            Piece::Number(line.number() as u64),
            Piece::Bytes(b": the document cannot be run with '"),
            Piece::Bytes(trimmed(line)),
            Piece::Bytes(b"': the operation has another number of arguments, '"),
            Piece::Bytes(trimmed(op)),
            Piece::Bytes(b"' in line "),
            Piece::Number(op.number() as u64),
            Piece::Bytes(b". See 'What can be run' in docs/language.md.\n"),
        ],
    )
}
