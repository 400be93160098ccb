//! Lines of what was read, by what they begin with and by their numbers.

ghost use Rattle.std.specs.Prelude.{◌≡◌, ◌+◌, ◌<◌, ◌^◌, length, None, Some, MatchOption};
ghost use Rattle.oa_text.specs.Lines.{lines_of};
ghost use Rattle.oa_text.specs.Shown.{line_shown};
ghost use Rattle.message_lines.specs.Places.{begins, begins_after, is_entry, is_instruction_after, is_numbered, declares_kind, declares_op, number_said, is_slots_said, count_word, is_wrong_slots, line_that};

use crate::words::{said, word_at};
use oa_text::{Line, lines, read_numeral};
use oa_words::limits::MOST_SLOTS;

/// Whether a line begins with a word.
pub fn begins(line: Line, word: &[u8]) -> bool
    ensures { result ≡ begins word.now (line_shown line.entry) }
{
    word_at(line, 0) == word
}

fn begins_after(line: Line, after: u32, word: &[u8]) -> bool
    ensures { result ≡ begins_after after word.now (line_shown line.entry) }
{
    after < line.number() && begins(line, word)
}

/// Whether a line is an entry of a commit.
pub fn entry(line: Line) -> bool
    ensures { result ≡ is_entry (line_shown line.entry) }
{
    begins(line, b"with") || begins(line, b"withroot")
}

fn instruction_after(line: Line, after: u32) -> bool
    ensures { result ≡ is_instruction_after after (line_shown line.entry) }
{
    after < line.number() && (said(line) && !entry(line))
}

/// Of the lines past a number that begin with a word the one at a place, from 0.
#[tactic(auto, using(crate::proofs::Searches::found, crate::proofs::Searches::counted, crate::proofs::Searches::passed, crate::proofs::Searches::missed))]
pub fn line_beginning<'a>(bytes: &'a [u8], after: u32, word: &[u8], at: usize) -> Option<Line<'a>>
    requires { length (lines_of bytes.now) + 1 < 2 ^ 32 }
    ensures { MatchOption result (line_that (begins_after after word.now) bytes.now at ≡ None) (λ line. line_that (begins_after after word.now) bytes.now at ≡ Some (line_shown line)) }
{
    let mut left = at;
    for line in lines(bytes) {
        if begins_after(line, after, word) {
            if left == 0 {
                return Some(line);
            }
            left -= 1;
        }
    }
    None
}

/// Of the instructions past a line the one at a place, from 0.
#[tactic(auto, using(crate::proofs::Searches::found, crate::proofs::Searches::counted, crate::proofs::Searches::passed, crate::proofs::Searches::missed))]
pub fn instruction_line<'a>(bytes: &'a [u8], after: u32, at: usize) -> Option<Line<'a>>
    requires { length (lines_of bytes.now) + 1 < 2 ^ 32 }
    ensures { MatchOption result (line_that (is_instruction_after after) bytes.now at ≡ None) (λ line. line_that (is_instruction_after after) bytes.now at ≡ Some (line_shown line)) }
{
    let mut left = at;
    for line in lines(bytes) {
        if instruction_after(line, after) {
            if left == 0 {
                return Some(line);
            }
            left -= 1;
        }
    }
    None
}

/// The line with a number.
#[tactic(auto, using(crate::proofs::Searches::found, crate::proofs::Searches::counted, crate::proofs::Searches::passed, crate::proofs::Searches::missed))]
pub fn numbered_line<'a>(bytes: &'a [u8], number: u64) -> Option<Line<'a>>
    requires { length (lines_of bytes.now) + 1 < 2 ^ 32 }
    ensures { MatchOption result (line_that (is_numbered number) bytes.now 0 ≡ None) (λ line. line_that (is_numbered number) bytes.now 0 ≡ Some (line_shown line)) }
{
    for line in lines(bytes) {
        if line.number() as u64 == number {
            return Some(line);
        }
    }
    None
}

fn declares_kind(line: Line, before: u32, name: &[u8]) -> bool
    ensures { result ≡ declares_kind before name.now (line_shown line.entry) }
{
    line.number() < before && (begins(line, b"kind") && word_at(line, 1) == name)
}

/// The line above a number that declares a kind so named.
#[tactic(auto, using(crate::proofs::Searches::found, crate::proofs::Searches::counted, crate::proofs::Searches::passed, crate::proofs::Searches::missed))]
pub fn kind_line<'a>(bytes: &'a [u8], before: u32, name: &[u8]) -> Option<Line<'a>>
    requires { length (lines_of bytes.now) + 1 < 2 ^ 32 }
    ensures { MatchOption result (line_that (declares_kind before name.now) bytes.now 0 ≡ None) (λ line. line_that (declares_kind before name.now) bytes.now 0 ≡ Some (line_shown line)) }
{
    for line in lines(bytes) {
        if declares_kind(line, before, name) {
            return Some(line);
        }
    }
    None
}

fn declares_op(line: Line, name: &[u8]) -> bool
    ensures { result ≡ declares_op name.now (line_shown line.entry) }
{
    begins(line, b"op") && word_at(line, 1) == name
}

/// The line that declares an operation so named.
#[tactic(auto, using(crate::proofs::Searches::found, crate::proofs::Searches::counted, crate::proofs::Searches::passed, crate::proofs::Searches::missed))]
pub fn op_line<'a>(bytes: &'a [u8], name: &[u8]) -> Option<Line<'a>>
    requires { length (lines_of bytes.now) + 1 < 2 ^ 32 }
    ensures { MatchOption result (line_that (declares_op name.now) bytes.now 0 ≡ None) (λ line. line_that (declares_op name.now) bytes.now 0 ≡ Some (line_shown line)) }
{
    for line in lines(bytes) {
        if declares_op(line, name) {
            return Some(line);
        }
    }
    None
}

/// Whether a kind may have as many slots as a word says.
fn slots_said(word: &[u8]) -> bool
    ensures { result ≡ is_slots_said (number_said word.now) }
{
    match read_numeral(word) {
        Some(Some(n)) => 1 <= n && n <= MOST_SLOTS,
        Some(None) => false,
        None => false,
    }
}

/// The count of a `slots` line.
fn count_word<'a>(line: Line<'a>) -> &'a [u8]
    ensures { result.now ≡ count_word (line_shown line.entry) }
{
    let last = word_at(line, 2);
    if last.is_empty() {
        word_at(line, 1)
    } else {
        last
    }
}

fn wrong_slots(line: Line) -> bool
    ensures { result ≡ is_wrong_slots (line_shown line.entry) }
{
    begins(line, b"slots") && !slots_said(count_word(line))
}

/// The first `slots` line whose count is out of range.
#[tactic(auto, using(crate::proofs::Searches::found, crate::proofs::Searches::passed, crate::proofs::Searches::missed))]
pub fn wrong_slots_line<'a>(bytes: &'a [u8]) -> Option<Line<'a>>
    requires { length (lines_of bytes.now) + 1 < 2 ^ 32 }
    ensures { MatchOption result (line_that is_wrong_slots bytes.now 0 ≡ None) (λ line. line_that is_wrong_slots bytes.now 0 ≡ Some (line_shown line)) }
{
    for line in lines(bytes) {
        if wrong_slots(line) {
            return Some(line);
        }
    }
    None
}
