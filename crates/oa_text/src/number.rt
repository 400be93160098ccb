//! Numbers as tokens.

ghost use Rattle.std.specs.Prelude.{◌≡◌, ℕ, Some, None, if◌then◌else◌};
ghost use Rattle.std.specs.List.{list_all};
ghost use Rattle.oa_text.specs.Numbers.{is_digit, is_numeral, with_digit, number_of, fitting, number_read};
ghost use Rattle.oa_text.specs.Shown.{line_shown, token_shown};

use crate::fault::TextFault;
use crate::line::Line;
use crate::token::Token;

fn digit(b: u8) -> bool
    ensures { result ≡ is_digit b }
{
    b'0' <= b && b <= b'9'
}

fn digits(bytes: &[u8]) -> bool
    ensures { result ≡ list_all is_digit bytes.now }
{
    bytes.iter().all(|b| digit(*b))
}

/// Whether bytes are `0`, or digits that begin with 1 to 9.
fn numeral(bytes: &[u8]) -> bool
    ensures { result ≡ is_numeral bytes.now }
{
    match bytes.split_first() {
        None => false,
        Some((first, rest)) => {
            if *first == b'0' {
                rest.is_empty()
            } else {
                digit(*first) && digits(rest)
            }
        }
    }
}

#[tactic(auto, using(crate::proofs::NumberLemmas::grows, crate::proofs::NumberLemmas::fits))]
fn add_digit(value: Option<u64>, b: u8) -> Option<u64>
    ensures { (n : ℕ) → value ≡ fitting n → result ≡ fitting (with_digit n b) }
{
    let tens = value?.checked_mul(10)?;
    tens.checked_add(b.saturating_sub(b'0') as u64)
}

/// The number that digits spell, if it fits.
fn value(digits: &[u8]) -> Option<u64>
    ensures { result ≡ fitting (number_of digits.now) }
{
    let mut value = Some(0u64);
    for b in digits {
        value = add_digit(value, *b);
    }
    value
}

/// The number that bytes spell: `None` if they aren't `0` or a digit string that begins with 1 to 9, and `Some(None)`
/// if they are and the number exceeds 2^64 - 1.
pub fn read_numeral(bytes: &[u8]) -> Option<Option<u64>>
    ensures { result ≡ (if is_numeral bytes.now then Some (fitting (number_of bytes.now)) else None) }
{
    if numeral(bytes) {
        Some(value(bytes))
    } else {
        None
    }
}

/// The number that a token of a line spells: `None` if it isn't `0` or a digit string that begins with 1 to 9.
///
/// # Errors
///
/// `Number` at the token's column if it is spelled so and exceeds 2^64 - 1.
pub fn read_u64(line: Line<'_>, token: Token<'_>) -> Result<Option<u64>, TextFault>
    ensures { result ≡ number_read (line_shown line.entry) (token_shown token.entry) }
{
    match read_numeral(token.bytes) {
        None => Ok(None),
        Some(Some(n)) => Ok(Some(n)),
        Some(None) => Err(TextFault::Number {
            line: line.number,
            column: token.column,
        }),
    }
}
