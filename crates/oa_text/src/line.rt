//! A line of a text, and the iterator over a text's lines.

ghost use Rattle.std.specs.Prelude.{◌≡◌, ◌+◌, ◌^◌, ◌<◌, length};
ghost use Rattle.std.specs.Iterator.{YieldsFirstBy, item_count};
ghost use Rattle.oa_text.specs.Lines.{lines_of, numbered};
ghost use Rattle.oa_text.specs.Shown.{line_shown};

use crate::cutting::first_line;
use std::marker::Model;

/// A line without its newline, with its number from 1.
#[derive(Clone, Copy)]
pub struct Line<'a> {
    pub(crate) number: u32,
    pub(crate) bytes: &'a [u8],
}

impl<'a> Line<'a> {
    /// The line's number, from 1.
    pub fn number(&self) -> u32
        ensures { result ≡ (line_shown self.now).number }
    {
        self.number
    }

    /// The line's bytes, without the newline.
    pub fn bytes(&self) -> &'a [u8]
        ensures { result.now ≡ (line_shown self.now).bytes }
    {
        self.bytes
    }
}

/// The lines of a text that are left, in order. `lines` makes it.
#[derive(Drop)]
pub struct Lines<'a> {
    rest: &'a [u8],
    number: u32,
}

impl<'a> Model for Lines<'a> {
    ghost use Rattle.std.specs.Prelude.{List, ◌+◌, ◌^◌, ◌<◌, length};
    ghost use Rattle.oa_text.specs.Lines.{TextLine, lines_of, numbered};

    ghost Value = { List TextLine };

    ghost view = { λ s. numbered s.number (lines_of s.rest.now) };

    ghost invariant = { λ s. s.number + length (lines_of s.rest.now) < 2 ^ 32 };
}

impl<'a> Lines<'a> {
    pub(crate) fn from_first(input: &'a [u8]) -> Lines<'a>
        requires { length (lines_of input.now) + 1 < 2 ^ 32 }
        ensures { result ≡ numbered 1 (lines_of input.now) }
    {
        Lines {
            rest: input,
            number: 1,
        }
    }
}

impl<'a> Iterator for Lines<'a> {
    type Item = Line<'a>;

    ghost next_gives = { YieldsFirstBy line_shown (λ s. s) };

    ghost remaining = { item_count (λ s. s) };

    fn next(&mut self) -> Option<Line<'a>> {
        if self.rest.is_empty() {
            return None;
        }
        let (bytes, rest) = first_line(self.rest);
        let line = Line {
            number: self.number,
            bytes,
        };
        self.rest = rest;
        self.number += 1;
        Some(line)
    }
}
