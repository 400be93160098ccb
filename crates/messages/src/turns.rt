//! The turn of the schedule at which a replay stopped, and the sentence on it.

ghost use Rattle.std.specs.Prelude.{◌≡◌, ◌+◌, ◌<◌, ◌^◌, length, None, Some, MatchOption};
ghost use Rattle.oa_text.specs.Causes.{HasCause};
ghost use Rattle.oa_text.specs.Lines.{lines_of};
ghost use Rattle.oa_text.specs.Shown.{line_shown};
ghost use Rattle.oa_text.specs.Written.{Writes};
ghost use Rattle.message_lines.specs.Places.{line_that};
ghost use Rattle.messages.specs.Turns.{is_turn_after, stopped_line, turn_sentence, unfound_sentence};

use message_lines::lines::{begins, line_beginning};
use message_lines::words::trimmed;
use oa_text::{Failed, Line, Piece, Sink, lines, write_pieces};
use statuses::shape_words;

/// The turn of a schedule at which a replay stopped, as it was found.
#[derive(Clone, Copy)]
pub enum StoppedTurn {
    /// The one after so many that were made whole.
    After(usize),
    /// There was no memory to find it.
    NoMemory,
    /// None, since there was no replay.
    Nowhere,
}

fn turn_after(line: Line, after: u32) -> bool
    ensures { result ≡ is_turn_after after (line_shown line.entry) }
{
    after < line.number()
        && (begins(line, b"step") || (begins(line, b"upto") || begins(line, b"op")))
}

/// Of the turns past a line the one at a place, from 0.
#[tactic(auto, using(message_lines::proofs::Searches::found, message_lines::proofs::Searches::counted, message_lines::proofs::Searches::passed, message_lines::proofs::Searches::missed))]
fn turn_line<'a>(bytes: &'a [u8], after: u32, at: usize) -> Option<Line<'a>>
    requires { length (lines_of bytes.now) + 1 < 2 ^ 32 }
    ensures { MatchOption result (line_that (is_turn_after after) bytes.now at ≡ None) (λ line. line_that (is_turn_after after) bytes.now at ≡ Some (line_shown line)) }
{
    let mut left = at;
    for line in lines(bytes) {
        if turn_after(line, after) {
            if left == 0 {
                return Some(line);
            }
            left -= 1;
        }
    }
    None
}

/// The turn at which a replay stopped that made so many turns whole.
pub(crate) fn stopped_line<'a>(bytes: &'a [u8], whole: usize) -> Option<Line<'a>>
    requires { length (lines_of bytes.now) + 1 < 2 ^ 32 }
    ensures { MatchOption result (stopped_line bytes.now whole ≡ None) (λ line. stopped_line bytes.now whole ≡ Some (line_shown line)) }
{
    let schedule = line_beginning(bytes, 0, b"schedule", 0)?;
    turn_line(bytes, schedule.number(), whole)
}

/// Writes at which turn a replay stopped.
pub(crate) fn write_turn<K: Sink>(errors: &mut K, line: Line, steps: u64) -> Result<(), Failed>
    ensures bytes { Writes (K.written errors.old) (K.written errors.new) (turn_sentence (line_shown line.entry) steps) result }
    ensures cause { HasCause (K.faults errors.old) (K.faults errors.new) result }
{
    write_pieces(
        errors,
        &[
            Piece::Bytes(b"oa: line "),
            Piece::Number(line.number() as u64),
            Piece::Bytes(b": the replay stopped after "),
            Piece::Number(steps),
            Piece::Bytes(b" steps, at '"),
            Piece::Bytes(trimmed(line)),
            Piece::Bytes(b"': "),
            Piece::Bytes(shape_words(10)),
            Piece::Bytes(b". See 'What can be run' in docs/language.md.\n"),
        ],
    )
}

/// Writes that a replay stopped at a turn which there was no memory to find.
pub(crate) fn write_unfound<K: Sink>(errors: &mut K, steps: u64) -> Result<(), Failed>
    ensures bytes { Writes (K.written errors.old) (K.written errors.new) (unfound_sentence steps) result }
    ensures cause { HasCause (K.faults errors.old) (K.faults errors.new) result }
{
    write_pieces(
        errors,
        &[
            Piece::Bytes(b"oa: the replay stopped after "),
            Piece::Number(steps),
            Piece::Bytes(b" steps, at a turn that there was no memory to find: "),
            Piece::Bytes(shape_words(10)),
            Piece::Bytes(b". See 'What can be run' in docs/language.md.\n"),
        ],
    )
}
