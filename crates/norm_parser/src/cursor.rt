//! The lines of an input, which its readers take in turn.

ghost use Rattle.std.specs.Prelude.{◌≡◌, [], ◌∷◌, ◌+◌, ◌<◌, ◌≤◌, ◌^◌, length, MatchOption};
ghost use Rattle.oa_text.specs.Lines.{lines_of, numbered};
ghost use Rattle.oa_text.specs.Shown.{line_shown};
ghost use Rattle.norm_parser.specs.Cursors.{all_lines, past_of, rest_of, StandsNext};
ghost use Rattle.norm_parser.specs.FrontRead.{from_line};

use oa_text::{Line, Lines, lines};
use std::marker::Model;

/// The lines of an input that are left. The next one may be looked at before it is taken. A reader takes its own lines, and
/// hands on those after them.
#[derive(Drop)]
pub struct Cursor<'a> {
    number: u32,
    next: Option<Line<'a>>,
    behind: Lines<'a>,
}

impl<'a> Model for Cursor<'a> {
    ghost use Rattle.std.specs.Prelude.{◌+◌, ◌^◌, ◌<◌, ◌≤◌, length, option_map};
    ghost use Rattle.oa_text.specs.Shown.{line_shown};
    ghost use Rattle.norm_parser.specs.Instruction.{AreFrom};
    ghost use Rattle.norm_parser.specs.Cursors.{LinesLeft, with_next, IsLast};

    ghost Value = { LinesLeft };

    ghost view = { λ s. record { number = s.number; lines = with_next (option_map line_shown s.next) s.behind } };

    ghost invariant = { λ s. (1 ≤ s.number) × (s.number + length (with_next (option_map line_shown s.next) s.behind) < 2 ^ 32) × AreFrom s.number (with_next (option_map line_shown s.next) s.behind) × IsLast (option_map line_shown s.next) s.behind };
}

impl<'a> Cursor<'a> {
    /// All lines of an input, which has fewer than 2^32 - 1.
    pub fn new(input: &'a [u8]) -> Cursor<'a>
        requires { length (lines_of input.now) + 1 < 2 ^ 32 }
        ensures { result ≡ all_lines input.now }
    {
        let mut behind = lines(input);
        let next = behind.next();
        Cursor {
            number: 1,
            next,
            behind,
        }
    }

    /// The lines of an input from this one on. Lines count from 1, and there are fewer than 2^32 - 1.
    pub fn from_line(input: &'a [u8], line: u32) -> Cursor<'a>
        requires few { length (lines_of input.now) + 1 < 2 ^ 32 }
        requires counted { 1 ≤ line }
        ensures lines { result.lines ≡ from_line line (numbered 1 (lines_of input.now)) }
        ensures past { past_of result ≡ length (lines_of input.now) + 1 }
    {
        let mut cursor = Cursor::new(input);
        for _ in 1..line {
            cursor.pass();
        }
        cursor
    }

    /// The number of the next line. If none is left, it is one more than that of the last.
    pub fn number(&self) -> u32
        ensures same { result ≡ self.now.number }
        ensures counted { 1 ≤ result }
    {
        self.number
    }

    /// The next line, which stays.
    pub fn peek(&self) -> Option<Line<'a>>
        ensures { MatchOption result (self.now.lines ≡ []) (λ line. StandsNext (line_shown line) self.now) }
    {
        self.next
    }

    /// Passes over the next line.
    pub fn pass(&mut self)
        ensures { self.new ≡ rest_of self.old }
    {
        if self.next.is_none() {
            return;
        }
        self.number += 1;
        self.next = self.behind.next();
    }

    /// Takes the next line.
    pub fn take(&mut self) -> Option<Line<'a>>
        ensures line { MatchOption result (self.old.lines ≡ []) (λ line. StandsNext (line_shown line) self.old) }
        ensures rest { self.new ≡ rest_of self.old }
    {
        let line = self.peek();
        self.pass();
        line
    }

    /// The next line, and those after it.
    pub fn split(self) -> (Option<Line<'a>>, Lines<'a>)
        ensures { MatchOption result.0 ((self.entry.lines ≡ []) × (result.1 ≡ [])) (λ line. self.entry.lines ≡ line_shown line ∷ result.1) }
    {
        (self.next, self.behind)
    }
}

/// The number past that of an input's last line.
#[tactic(auto, using(crate::proofs::Reading::past_first))]
pub fn number_past(input: &[u8]) -> u32
    requires { length (lines_of input.now) + 1 < 2 ^ 32 }
    ensures { result ≡ length (lines_of input.now) + 1 }
{
    let mut past = 1;
    for _ in lines(input) {
        past += 1;
    }
    past
}
