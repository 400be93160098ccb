//! Where a text within a document ends, and a target's declarations.

ghost use Rattle.std.specs.Prelude.{◌≡◌, ◌||◌};
ghost use Rattle.oa_text.specs.Shown.{line_shown};
ghost use Rattle.oa_text.specs.Tokens.{words_of, line_fault};
ghost use Rattle.line_words.specs.Faults.{number_of_fault};
ghost use Rattle.norm_parser.specs.FrontRead.{front_of, ends_text, names_text, ends_head, misplaced};

use line_words::fault::Fault;
use line_words::words::Words;
use oa_text::{Line, blanks_in_front, ink_in_front};

/// The first word of a line's bytes, even if the line has a fault; no bytes if it has no word.
#[tactic(auto, using(crate::proofs::FrontWords::fronts, crate::proofs::FrontWords::front_word))]
pub(crate) fn front_word(bytes: &[u8]) -> &[u8]
    ensures { result.now ≡ front_of (words_of bytes.now) }
{
    let (_, inked) = bytes.split_at(blanks_in_front(bytes));
    inked.split_at(ink_in_front(inked)).0
}

/// Whether a document goes on with a line that begins with this word.
fn ends_text(word: &[u8]) -> bool
    ensures { result ≡ ends_text word.now }
{
    word == b"slots".as_slice()
        || word == b"phases".as_slice()
        || word == b"fuel".as_slice()
        || word == b"script".as_slice()
        || word == b"schedule".as_slice()
}

/// Whether a text ends before a line that begins with this word: after a line that names a shipped one it does at once.
pub(crate) fn ends_front(named: bool, word: &[u8]) -> bool
    ensures { result ≡ named || ends_text word.now }
{
    named || ends_text(word)
}

/// Whether a line that begins with this word names a shipped text.
pub(crate) fn names_text(word: &[u8]) -> bool
    ensures { result ≡ names_text word.now }
{
    word == b"use".as_slice()
}

/// Whether an operation begins with a line that begins with this word.
pub(crate) fn ends_head(word: &[u8]) -> bool
    ensures { result ≡ ends_head word.now }
{
    word == b"op".as_slice()
}

/// The fault of a line that stands where another must: what is wrong with its bytes comes first.
pub(crate) fn misplaced(line: Line) -> Fault
    ensures { number_of_fault result ≡ misplaced (line_fault (line_shown line.entry)) }
{
    match Words::new(line) {
        Ok(_) => Fault::Form,
        Err(fault) => fault,
    }
}
