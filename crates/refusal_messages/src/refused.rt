//! Where a rule is broken, and the sentence on it.

ghost use Rattle.std.specs.Prelude.{◌≡◌, ◌+◌, ◌<◌, ◌^◌, length, None, Some, MatchOption};
ghost use Rattle.oa_text.specs.Causes.{HasCause};
ghost use Rattle.oa_text.specs.Lines.{lines_of};
ghost use Rattle.oa_text.specs.Pieces.{piece_bytes};
ghost use Rattle.oa_text.specs.Shown.{line_shown};
ghost use Rattle.oa_text.specs.Written.{Writes};
ghost use Rattle.refusal_messages.specs.Refused.{refused_lines, method_start, register_before, register_number, refused_sentence};

use crate::named::Blame;
use message_lines::lines::{instruction_line, line_beginning};
use message_lines::words::{trimmed, word_at};
use message_words::rule_mend;
use norm_lang::text::Reg;
use oa_text::{Failed, Line, Piece, Sink, write_pieces};
use statuses::{Refusal, method_words, rule_words};

/// The line of an operation, and that of one of its instructions.
#[derive(Clone, Copy)]
pub struct RefusedLines<'a> {
    pub op: Line<'a>,
    pub at: Line<'a>,
}

/// The line with which a method begins.
fn method_start(wrapup: bool) -> &'static [u8]
    ensures { result.now ≡ method_start wrapup }
{
    if wrapup { b"wrap" } else { b"gen" }
}

/// Where the instruction stands that breaks a rule.
pub fn refused_lines<'a>(bytes: &'a [u8], refusal: Refusal) -> Option<RefusedLines<'a>>
    requires { length (lines_of bytes.now) + 1 < 2 ^ 32 }
    ensures { MatchOption result (refused_lines bytes.now refusal ≡ None) (λ found. refused_lines bytes.now refusal ≡ Some (record { op = line_shown found.op; at = line_shown found.at })) }
{
    let op = line_beginning(bytes, 0, b"op", refusal.op as usize)?;
    let method = line_beginning(bytes, op.number(), method_start(refusal.wrapup), 0)?;
    let at = instruction_line(bytes, method.number(), refusal.at as usize)?;
    Some(RefusedLines { op, at })
}

/// What stands before the number of a register that is named, or that there was no memory to find it.
#[tactic(auto, unfolding(crate::specs::Refused::register_before))]
fn register_before(named: Blame) -> &'static [u8]
    ensures { result.now ≡ register_before named }
{
    match named {
        Blame::Found(None) => b"",
        Blame::Found(Some(Reg::Num(_))) => b", at n",
        Blame::Found(Some(Reg::Ref(_))) => b", at r",
        Blame::NoMemory => b", at a register, if any, that there was no memory to find",
    }
}

/// The number of a register that is named.
#[tactic(auto, unfolding(crate::specs::Refused::register_number))]
fn register_number(named: Blame) -> Piece<'static>
    ensures { piece_bytes result ≡ register_number named }
{
    match named {
        Blame::Found(None) | Blame::NoMemory => Piece::Bytes(b""),
        Blame::Found(Some(Reg::Num(number))) | Blame::Found(Some(Reg::Ref(number))) => {
            Piece::Number(number as u64)
        }
    }
}

/// Writes which rule is broken, by which line, at which register, if one is at fault and was found, and how to mend it.
///
/// # Errors
///
/// `Failed` if a write fails: a prefix of the sentence was written then.
pub fn write_refused<K: Sink>(
    errors: &mut K,
    found: RefusedLines,
    refusal: Refusal,
    named: Blame,
) -> Result<(), Failed>
    ensures bytes { Writes (K.written errors.old) (K.written errors.new) (refused_sentence (record { op = line_shown found.entry.op; at = line_shown found.entry.at }) refusal named) result }
    ensures cause { HasCause (K.faults errors.old) (K.faults errors.new) result }
{
    write_pieces(
        errors,
        &[
            Piece::Bytes(b"oa: line "),
            Piece::Number(found.at.number() as u64),
            Piece::Bytes(b": rule N"),
            Piece::Number(refusal.rule as u64),
            Piece::Bytes(b" is broken by '"),
            Piece::Bytes(trimmed(found.at)),
            Piece::Bytes(b"', instruction "),
            Piece::Number(refusal.at as u64),
            Piece::Bytes(method_words(refusal.wrapup)),
            Piece::Bytes(b" of '"),
            Piece::Bytes(word_at(found.op, 1)),
            Piece::Bytes(b"' (counted from 0)"),
            Piece::Bytes(register_before(named)),
            register_number(named),
            Piece::Bytes(b": "),
            Piece::Bytes(rule_words(refusal.rule)),
            Piece::Bytes(b". "),
            Piece::Bytes(rule_mend(refusal.rule)),
            Piece::Bytes(b"; see 'N"),
            Piece::Number(refusal.rule as u64),
            Piece::Bytes(b"' in docs/language.md.\n"),
        ],
    )
}
