//! The reader of documents.

ghost use Rattle.std.specs.Prelude.{◌≡◌, ◌+◌, ◌<◌, ◌≤◌, ◌^◌, length, IfOk};
ghost use Rattle.oa_text.specs.Lines.{lines_of};
ghost use Rattle.line_words.specs.Answered.{Answers};
ghost use Rattle.documents.specs.DocumentRead.{empty_tail, after_lines, document_read};
ghost use Rattle.documents.specs.TailRead.{tail_if};
ghost use Rattle.documents.specs.TailShown.{tail_shown};
ghost use Rattle.documents.specs.DocumentLimits.{IsWithinDocumentLimits};

use crate::document::Document;
use crate::lines::read_tail_line;
use crate::tail::Tail;
use line_words::fault::ParseError;
use norm_lang::text::{Text, Version};
use norm_parser::{Cursor, read_front, read_version};
use std::alloc::Global;

/// Adds what the lines after a text say.
#[tactic(auto, using(crate::proofs::Reading::tail_over, crate::proofs::Reading::tail_goes_on, crate::proofs::Reading::tail_stops, crate::proofs::Reading::few_kinds))]
fn add_tail(tail: &mut Tail, alloc: Global, cursor: &mut Cursor) -> Result<(), ParseError>
    requires few_kinds { length tail.old.text.kinds ≤ 4 }
    ensures says { Answers (λ _. tail_shown tail.new) result (after_lines (tail_shown tail.old) cursor.old.lines) }
    ensures kept { IfOk result (λ _. tail.new.text ≡ tail.old.text) }
{
    'lines: while let Some(line) = cursor.take() {
        read_tail_line(tail, alloc, line)?;
    }
    Ok(())
}

/// A tail, if it was read. This is a function of its own, since dropping a tail needs a proof on each way out.
fn tail_if(tail: Tail, read: Result<(), ParseError>) -> Result<Tail, ParseError>
    ensures { result ≡ tail_if tail read }
{
    match read {
        Ok(()) => Ok(tail),
        Err(error) => Err(error),
    }
}

/// What the lines after a text say.
fn read_tail(
    alloc: Global,
    version: Version,
    text: Text,
    cursor: &mut Cursor,
) -> Result<Tail, ParseError>
    requires few_kinds { length text.kinds ≤ 4 }
    ensures says { Answers (λ tail. tail_shown tail) result (after_lines (empty_tail version text.kinds) cursor.old.lines) }
    ensures kept { IfOk result (λ tail. tail.text ≡ text) }
{
    let mut tail = Tail::empty(alloc, version, text)?;
    let read = add_tail(&mut tail, alloc, cursor);
    tail_if(tail, read)
}

/// The document that the bytes spell: a line `oa 1` or `oa 2`, a text of that version, the settings, the scripts, and a
/// schedule. Each of its parts is within the limits, and slots are said for each kind.
///
/// The input has fewer than 2^32 - 1 lines; its length bounds their count.
///
/// # Errors
///
/// `Fault` exactly if the bytes spell no document by the grammar, with the grammar's fault: the first line that has
/// one, and its first fault. If the input ends but a further line must follow, the fault is 4 at one more than the
/// number of lines. `Memory` if memory runs out.
pub fn read_document(alloc: Global, input: &[u8]) -> Result<Document, ParseError>
    requires { length (lines_of input.now) + 1 < 2 ^ 32 }
    ensures exact { Answers (λ document. document) result (document_read input.now) }
    ensures within { IfOk result (λ document. IsWithinDocumentLimits document) }
    ensures slots { IfOk result (λ document. length document.slots ≡ length document.text.kinds) }
{
    let mut cursor = Cursor::new(input);
    let version = read_version(b"oa", &mut cursor)?;
    let text = read_front(alloc, version, &mut cursor)?;
    let tail = read_tail(alloc, version, text, &mut cursor)?;
    Ok(tail.into_document(alloc)?)
}
