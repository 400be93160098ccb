//! The lines of a text, and the tokens of a line.

ghost use Rattle.std.specs.Prelude.{◌≡◌, ◌+◌, ◌^◌, ◌<◌, length, IfOk, IfErr};
ghost use Rattle.oa_text.specs.Lines.{lines_of, numbered};
ghost use Rattle.oa_text.specs.Shown.{line_shown};
ghost use Rattle.oa_text.specs.Tokens.{is_plain, line_fault, odd_column_from, tokens_of};

use crate::fault::TextFault;
use crate::limits::LONGEST_LINE;
use crate::line::{Line, Lines};
use crate::token::Tokens;

/// The lines of a text, numbered from 1. A line ends before a newline byte or at the end of the input; what follows
/// the last newline is a line only if it isn't empty.
///
/// The input has fewer than 2^32 - 1 lines, so that each number fits. Its length bounds their count.
pub fn lines(input: &[u8]) -> Lines<'_>
    requires { length (lines_of input.now) + 1 < 2 ^ 32 }
    ensures { result ≡ numbered 1 (lines_of input.now) }
{
    Lines::from_first(input)
}

fn plain(b: u8) -> bool
    ensures { result ≡ is_plain b }
{
    b == b'\t' || b' ' <= b && b <= b'~'
}

/// The column of the first byte that isn't plain.
fn odd_column(bytes: &[u8]) -> Option<u32>
    requires { length bytes.now + 1 < 2 ^ 32 }
    ensures { result ≡ odd_column_from 1 bytes.now }
{
    let mut column = 1;
    for b in bytes {
        if !plain(*b) {
            return Some(column);
        }
        column += 1;
    }
    None
}

/// The tokens of a line: its maximal runs of bytes other than space and tab, each a slice of the line.
///
/// # Errors
///
/// `LineLong` at column 201 if the line has more than 200 bytes; else `Byte` if it has a byte other than a tab
/// and those from space to `~`, at the column of the first.
pub fn tokens(line: Line<'_>) -> Result<Tokens<'_>, TextFault>
    ensures fine { IfOk result (λ tokens. (line_fault (line_shown line.entry) ≡ None) × (tokens ≡ tokens_of (line_shown line.entry).bytes)) }
    ensures refused { IfErr result (λ fault. line_fault (line_shown line.entry) ≡ Some fault) }
{
    if line.bytes.len() > LONGEST_LINE {
        return Err(TextFault::LineLong {
            line: line.number,
            column: LONGEST_LINE as u32 + 1,
        });
    }
    match odd_column(line.bytes) {
        Some(column) => Err(TextFault::Byte {
            line: line.number,
            column,
        }),
        None => Ok(Tokens::from_first(line.bytes)),
    }
}
