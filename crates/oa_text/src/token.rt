//! A token of a line, and the iterator over a line's tokens.

ghost use Rattle.std.specs.Prelude.{◌≡◌, ◌+◌, ◌^◌, ◌<◌, length};
ghost use Rattle.std.specs.Iterator.{YieldsFirstBy, item_count};
ghost use Rattle.oa_text.specs.Shown.{token_shown};
ghost use Rattle.oa_text.specs.Tokens.{tokens_of};

use crate::cutting::first_token;
use std::marker::Model;

/// A run of bytes other than space and tab, with the column of its first byte, from 1.
#[derive(Clone, Copy)]
pub struct Token<'a> {
    pub(crate) column: u32,
    pub(crate) bytes: &'a [u8],
}

impl<'a> Token<'a> {
    /// The column of the token's first byte, from 1.
    pub fn column(&self) -> u32
        ensures { result ≡ (token_shown self.now).column }
    {
        self.column
    }

    /// The token's bytes: a slice of its line.
    pub fn bytes(&self) -> &'a [u8]
        ensures { result.now ≡ (token_shown self.now).bytes }
    {
        self.bytes
    }
}

/// The tokens of a line that are left, in order. `tokens` makes it.
#[derive(Drop)]
pub struct Tokens<'a> {
    rest: &'a [u8],
    column: u32,
}

impl<'a> Model for Tokens<'a> {
    ghost use Rattle.std.specs.Prelude.{List, ◌+◌, ◌^◌, ◌<◌, length};
    ghost use Rattle.oa_text.specs.Tokens.{TextToken, tokens_from};

    ghost Value = { List TextToken };

    ghost view = { λ s. tokens_from s.column s.rest.now };

    ghost invariant = { λ s. s.column + length s.rest.now < 2 ^ 32 };
}

impl<'a> Tokens<'a> {
    pub(crate) fn from_first(bytes: &'a [u8]) -> Tokens<'a>
        requires { length bytes.now + 1 < 2 ^ 32 }
        ensures { result ≡ tokens_of bytes.now }
    {
        Tokens {
            rest: bytes,
            column: 1,
        }
    }
}

impl<'a> Iterator for Tokens<'a> {
    type Item = Token<'a>;

    ghost next_gives = { YieldsFirstBy token_shown (λ s. s) };

    ghost remaining = { item_count (λ s. s) };

    fn next(&mut self) -> Option<Token<'a>> {
        let (token, rest) = first_token(self.column, self.rest)?;
        self.column = token.column + token.bytes.len() as u32;
        self.rest = rest;
        Some(token)
    }
}
