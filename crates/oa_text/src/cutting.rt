//! The first line of a text and the first token of a line, each with what follows it.

ghost use Rattle.std.specs.Prelude.{◌≡◌, ◌∷◌, [], ◌+◌, ◌^◌, ◌<◌, length, MatchOption, IfSome};
ghost use Rattle.std.specs.List.{prefix_len};
ghost use Rattle.oa_text.specs.Lines.{lines_of};
ghost use Rattle.oa_text.specs.Shown.{token_shown};
ghost use Rattle.oa_text.specs.Tokens.{is_blank, is_ink, tokens_from, end_column};

use crate::token::Token;

const NEWLINE: u8 = 10;

/// The first line, and what follows its newline.
#[tactic(auto, using(crate::proofs::LineLemmas::line_more, crate::proofs::LineLemmas::line_ends, crate::proofs::LineLemmas::line_last))]
pub(crate) fn first_line(bytes: &[u8]) -> (&[u8], &[u8])
    requires { 0 < length bytes.now }
    ensures { lines_of bytes.now ≡ result.0.now ∷ lines_of result.1.now }
{
    for (i, b) in bytes.iter().enumerate() {
        if *b == NEWLINE {
            return (bytes.split_at(i).0, bytes.split_at(i + 1).1);
        }
    }
    (bytes, &[])
}

fn blank(b: u8) -> bool
    ensures { result ≡ is_blank b }
{
    b == b' ' || b == b'\t'
}

/// How many blanks come first.
pub fn blanks_in_front(bytes: &[u8]) -> usize
    ensures { result ≡ prefix_len is_blank bytes.now }
{
    bytes.iter().take_while(|b| blank(**b)).count()
}

/// How many bytes stand before the first blank.
pub fn ink_in_front(bytes: &[u8]) -> usize
    ensures { result ≡ prefix_len is_ink bytes.now }
{
    bytes.iter().take_while(|b| !blank(**b)).count()
}

/// The first token of bytes that begin at a column, and what follows it.
#[tactic(auto, using(crate::proofs::TokenLemmas::fronts, crate::proofs::TokenLemmas::no_token, crate::proofs::TokenLemmas::first_token))]
pub(crate) fn first_token(column: u32, bytes: &[u8]) -> Option<(Token<'_>, &[u8])>
    requires { column + length bytes.now < 2 ^ 32 }
    ensures first { MatchOption result (tokens_from column bytes.now ≡ []) (λ cut. tokens_from column bytes.now ≡ token_shown cut.0 ∷ tokens_from (end_column (token_shown cut.0)) cut.1.now) }
    ensures place { IfSome result (λ cut. end_column (token_shown cut.0) + length cut.1.now ≡ column + length bytes.now) }
{
    let skipped = blanks_in_front(bytes);
    let (_, inked) = bytes.split_at(skipped);
    if inked.is_empty() {
        return None;
    }
    let (word, rest) = inked.split_at(ink_in_front(inked));
    let token = Token {
        column: column + skipped as u32,
        bytes: word,
    };
    Some((token, rest))
}
