//! The initial node that a line names and that doesn't exist.

ghost use Rattle.std.specs.Prelude.{◌≡◌, ◌+◌, ◌<◌, ◌^◌, length, find, map, None, Some, MatchOption};
ghost use Rattle.oa_text.specs.Lines.{lines_of};
ghost use Rattle.oa_text.specs.Shown.{line_shown};
ghost use Rattle.count_messages.specs.Stray.{count_in, promised_by, is_nodes_above, is_beyond, is_number_astray, is_stray_word, stray_word};

use message_lines::lines::begins;
use message_lines::words::word_at;
use oa_text::{Line, Tokens, lines, read_numeral, tokens};

/// The number that a word says, or 0.
fn count_in(said: Option<Option<u64>>) -> u64
    ensures { result ≡ count_in said }
{
    match said {
        None => 0,
        Some(None) => 0,
        Some(Some(count)) => count,
    }
}

/// How many initial nodes a `nodes` line promises.
fn promised_by(line: Line) -> u64
    ensures { result ≡ promised_by (line_shown line.entry) }
{
    let word = if word_at(line, 2).is_empty() {
        word_at(line, 1)
    } else {
        word_at(line, 2)
    };
    count_in(read_numeral(word))
}

fn nodes_above(line: Line, number: u32) -> bool
    ensures { result ≡ is_nodes_above number (line_shown line.entry) }
{
    line.number() < number && begins(line, b"nodes")
}

/// Whether a number is greater than the count of nodes that the lines above another promise.
#[tactic(auto, using(crate::proofs::Straying::node_counted, crate::proofs::Straying::node_passed, crate::proofs::Straying::nodes_done))]
fn beyond(bytes: &[u8], number: u32, node: u64) -> bool
    requires { length (lines_of bytes.now) + 1 < 2 ^ 32 }
    ensures { result ≡ is_beyond bytes.now number node }
{
    let mut left = node;
    for line in lines(bytes) {
        if nodes_above(line, number) {
            left = left.saturating_sub(promised_by(line));
        }
    }
    0 < left
}

/// Whether there is no node with the number that is said.
fn number_astray(bytes: &[u8], number: u32, said: Option<Option<u64>>) -> bool
    requires { length (lines_of bytes.now) + 1 < 2 ^ 32 }
    ensures { result ≡ is_number_astray bytes.now number said }
{
    match said {
        None => false,
        Some(None) => true,
        Some(Some(node)) => node == 0 || beyond(bytes, number, node),
    }
}

/// Whether a word names a node that doesn't exist.
fn stray(bytes: &[u8], number: u32, word: &[u8]) -> bool
    requires { length (lines_of bytes.now) + 1 < 2 ^ 32 }
    ensures { result ≡ is_stray_word bytes.now number word.now }
{
    match word.split_first() {
        None => false,
        Some((first, rest)) => *first == b'@' && number_astray(bytes, number, read_numeral(rest)),
    }
}

/// The first of these words that names a node that doesn't exist.
#[tactic(auto, using(crate::proofs::Straying::word_met, crate::proofs::Straying::word_left, crate::proofs::Straying::words_done))]
fn stray_token<'a>(bytes: &[u8], number: u32, tokens: Tokens<'a>) -> Option<&'a [u8]>
    requires { length (lines_of bytes.now) + 1 < 2 ^ 32 }
    ensures { MatchOption result (find (is_stray_word bytes.now number) (map (λ token. token.bytes) tokens.entry) ≡ None) (λ word. find (is_stray_word bytes.now number) (map (λ token. token.bytes) tokens.entry) ≡ Some word.now) }
{
    for token in tokens {
        if stray(bytes, number, token.bytes()) {
            return Some(token.bytes());
        }
    }
    None
}

/// The first word of a line that names a node that doesn't exist.
pub fn stray_word<'a>(bytes: &[u8], line: Line<'a>) -> Option<&'a [u8]>
    requires { length (lines_of bytes.now) + 1 < 2 ^ 32 }
    ensures { MatchOption result (stray_word bytes.now (line_shown line.entry) ≡ None) (λ word. stray_word bytes.now (line_shown line.entry) ≡ Some word.now) }
{
    match tokens(line) {
        Ok(tokens) => stray_token(bytes, line.number(), tokens),
        Err(_) => None,
    }
}
