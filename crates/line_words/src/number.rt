//! Numbers as they are spelled.

ghost use Rattle.norm_lang.specs.LineWords.{number_in};
ghost use Rattle.line_words.specs.Answered.{Reads};

use crate::fault::Fault;
use oa_text::read_numeral;

/// The number that bytes spell: `None` if it exceeds 2^64 - 1. Of `@J` the J is no word of its own, so this takes
/// bytes and no token.
///
/// # Errors
///
/// `Form` if they spell no number: it is `0`, or digits of which the first is `1` to `9`.
pub fn number_in(bytes: &[u8]) -> Result<Option<u64>, Fault>
    ensures { Reads (λ n. n) result (number_in bytes.now) }
{
    read_numeral(bytes).ok_or(Fault::Form)
}
