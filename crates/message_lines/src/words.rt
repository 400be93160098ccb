//! The words of a line, by their places.

ghost use Rattle.std.specs.Prelude.{◌≡◌, [], map, get_or};
ghost use Rattle.oa_text.specs.Shown.{line_shown};
ghost use Rattle.message_lines.specs.Places.{word_at, trimmed, is_said};

use oa_text::{Line, Tokens, blanks_in_front, tokens};

/// The bytes of the token at a place, from 0: none if there are fewer.
#[tactic(auto, using(crate::proofs::Searches::word_found, crate::proofs::Searches::word_passed, crate::proofs::Searches::word_missed))]
fn nth_token<'a>(tokens: Tokens<'a>, at: usize) -> &'a [u8]
    ensures { result.now ≡ get_or (map (λ token. token.bytes) tokens.entry) at [] }
{
    let mut left = at;
    for token in tokens {
        if left == 0 {
            return token.bytes();
        }
        left -= 1;
    }
    b""
}

/// The word at a place of a line, from 0: no bytes if there are fewer, or if the line's bytes have a fault.
pub fn word_at<'a>(line: Line<'a>, at: usize) -> &'a [u8]
    ensures { result.now ≡ word_at (line_shown line.entry) at }
{
    match tokens(line) {
        Ok(tokens) => nth_token(tokens, at),
        Err(_) => b"",
    }
}

/// A line as it is spelled, from its first word on.
pub fn trimmed<'a>(line: Line<'a>) -> &'a [u8]
    ensures { result.now ≡ trimmed (line_shown line.entry) }
{
    let bytes = line.bytes();
    bytes.split_at(blanks_in_front(bytes)).1
}

/// Whether a line says something: it has a word, and its first doesn't begin with `#`.
pub fn said(line: Line) -> bool
    ensures { result ≡ is_said (line_shown line.entry) }
{
    match word_at(line, 0).split_first() {
        None => false,
        Some((first, _)) => *first != b'#',
    }
}
