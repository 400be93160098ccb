//! One instruction on the shipped queue: the kind `item`, the fields `value` and `next`, and the roots `head` and `tail`.

ghost use Rattle.std.specs.Prelude.{◌≡◌, ◌<◌, ◌+◌, ◌^◌, false, length, IsTrue, OnOk};
ghost use Rattle.oa_text.specs.Lines.{lines_of};
ghost use Rattle.oa_text.specs.Shown.{line_shown};
ghost use Rattle.oa_text.specs.Tokens.{words_of};
ghost use Rattle.norm_lang.specs.Limits.{IsWithinLimits};
ghost use Rattle.norm_parser.specs.Instruction.{are_skipped, AreFrom, AreLeftOf};

use crate::answer::{refused, told};
use norm_lang::shipped_queue;
use norm_lang::text::Text;
use norm_parser::parse_instr;
use oa_text::{Line, Lines, lines};
use row_spelling::RowError;
use std::alloc::{AllocError, Global};
use std::fmt::Write;

/// Whether a line stands for something: its first byte is of a word that isn't a comment.
#[tactic(auto, using(crate::proofs::FirstWords::stands))]
fn stands(line: Line) -> bool
    ensures { IsTrue result → are_skipped (words_of (line_shown line.entry).bytes) ≡ false }
{
    match line.bytes().split_first() {
        None => false,
        Some((b, _)) => *b != b' ' && *b != b'\t' && *b != b'#',
    }
}

/// The lines, numbered from 1.
#[tactic(auto, using(crate::proofs::FirstWords::from_numbered, crate::proofs::FirstWords::few_numbered))]
fn all_lines(bytes: &[u8]) -> Lines<'_>
    requires { length (lines_of bytes.now) + 1 < 2 ^ 32 }
    ensures ordered { AreFrom 1 result }
    ensures room { 1 + length result < 2 ^ 32 }
{
    lines(bytes)
}

/// Whether a line begins an instruction on a text's kinds, fields and roots.
fn judged<'a>(
    alloc: Global,
    text: &Text,
    first: Line<'a>,
    rest: &mut Lines<'a>,
) -> Result<String, AllocError>
    requires within { IsWithinLimits text.now }
    requires stands { are_skipped (words_of (line_shown first).bytes) ≡ false }
    requires after { AreFrom ((line_shown first).number + 1) rest.old }
    requires room { (line_shown first).number + 1 + length rest.old < 2 ^ 32 }
    ensures left { OnOk result (AreLeftOf rest.old rest.new) }
{
    match parse_instr(alloc, first, rest, &text.fields, &text.roots, &text.kinds) {
        Ok(_) => String::from_str(alloc, "ok"),
        Err(error) => refused(alloc, error),
    }
}

/// An answer with the count of lines that are left, if there are any.
fn with_left(mut answer: String, left: usize) -> Result<String, AllocError> {
    if left > 0 {
        write!(answer, ", {left} left")?;
    }
    Ok(answer)
}

/// Whether a line begins an instruction on a text's kinds, fields and roots, and how many lines are left after it.
fn line_answer<'a>(
    alloc: Global,
    text: &Text,
    first: Line<'a>,
    mut rest: Lines<'a>,
) -> Result<String, AllocError>
    requires within { IsWithinLimits text.now }
    requires stands { are_skipped (words_of (line_shown first).bytes) ≡ false }
    requires after { AreFrom ((line_shown first).number + 1) rest }
    requires room { (line_shown first).number + 1 + length rest < 2 ^ 32 }
{
    let answer = judged(alloc, text, first, &mut rest)?;
    with_left(answer, rest.count())
}

/// The same of lines, whose first has to stand for something.
#[tactic(auto, using(norm_parser::proofs::LinesLeft::number_is, norm_parser::proofs::LinesLeft::from_next))]
fn lines_answer(alloc: Global, text: &Text, bytes: &[u8]) -> Result<String, RowError>
    requires within { IsWithinLimits text.now }
    requires few { length (lines_of bytes.now) + 1 < 2 ^ 32 }
{
    let mut rest = all_lines(bytes);
    match rest.next() {
        Some(first) if stands(first) => told(line_answer(alloc, text, first, rest)),
        _ => Err(RowError::Wrong),
    }
}

/// Whether the lines begin with an instruction on the queue, and how many lines are left after what was read.
pub(crate) fn instruction_answer(alloc: Global, bytes: &[u8]) -> Result<String, RowError>
    requires { length (lines_of bytes.now) + 1 < 2 ^ 32 }
{
    match shipped_queue(alloc) {
        Ok(queue) => lines_answer(alloc, &queue, bytes),
        Err(error) => Err(RowError::Memory(error)),
    }
}
