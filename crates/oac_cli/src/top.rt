//! The top call.

ghost use Rattle.std.specs.Prelude.{◌<◌, length, map};
ghost use Rattle.std.specs.String.{string_bytes};
ghost use Rattle.norm_lang.specs.NormalForm.{IsNormal};
ghost use Rattle.documents.specs.DocumentLimits.{IsWithinDocumentLimits};
ghost use Rattle.statuses.specs.declared.limits.TheConstants.{DOCUMENT_LIMIT};
ghost use Rattle.oa_cli.specs.declared.verdicts.verdict.Verdict.{Verdict};
ghost use Rattle.oa_cli.specs.verdicts.Telling.{IsSaid, text_for, status_for};
ghost use Rattle.oa_cli.specs.Judged.{IsOfSource, FaultsAreTold};
ghost use Rattle.oac_cli.specs.Judged.{IsFound, IsOfDocument, IsOfBytes, IsTold, IsOfWord, IsJudged, IsComplete};

use crate::command::{Request, request_of};
use crate::emission::emit;
use crate::texts::{HELP, VERSION};
use documents::{Document, read_document};
use line_words::fault::ParseError;
use norm_check::{CheckError, Refusal};
use norm_lang::list::Listed;
use oa_cli::verdicts::{Verdict, say};
use oa_cli::{judge_text, read_source, refused};
use oa_text::{Sink, Source};
use statuses::Status;
use statuses::limits::DOCUMENT_LIMIT;
use std::alloc::Global;

/// The header of a text that is in normal form.
#[tactic(auto, using(crate::proofs::FewKinds::few_kinds))]
fn header_verdict(alloc: Global, name: &[u8], document: &Document) -> Verdict
    requires within { IsWithinDocumentLimits document.now }
    requires normal { IsNormal document.now.text }
    ensures { IsOfDocument name.now document.now result }
{
    match emit(alloc, name, &document.text) {
        Ok(spelling) => Verdict::Compiled(spelling),
        Err(_) => Verdict::Memory,
    }
}

/// Emits the header of a document, if the rules accept its text, or finds the first rule that it breaks.
fn find_verdict(alloc: Global, name: &[u8], document: &Document) -> Result<Verdict, Refusal>
    requires { IsWithinDocumentLimits document.now }
    ensures { IsFound name.now document.now result }
{
    match judge_text(alloc, &document.text) {
        Ok(normal) => {
            normal.kept();
            Ok(header_verdict(alloc, name, document))
        }
        Err(CheckError::Refused(refusal)) => Err(refusal),
        Err(CheckError::Memory) => Ok(Verdict::Memory),
    }
}

/// Emits the header of a document.
fn judge_document(alloc: Global, name: &[u8], document: Document) -> Verdict
    requires { IsWithinDocumentLimits document }
    ensures { IsOfDocument name.now document result }
{
    match find_verdict(alloc, name, &document) {
        Ok(verdict) => {
            drop(document);
            verdict
        }
        Err(refusal) => refused(document, refusal),
    }
}

/// Reads the bytes as a document, and emits its header.
fn judge_bytes(alloc: Global, name: &[u8], bytes: &[u8]) -> Verdict
    requires { length bytes.now < DOCUMENT_LIMIT }
    ensures { IsOfBytes name.now bytes.now result }
{
    match read_document(alloc, bytes) {
        Ok(document) => judge_document(alloc, name, document),
        Err(ParseError::Fault(fault)) => Verdict::BadDocument(fault),
        Err(ParseError::Memory) => Verdict::Memory,
    }
}

/// Reads the source to its end, and emits the header of the document that it has.
fn judge_source<S: Source>(alloc: Global, name: &[u8], input: &mut S) -> Verdict
    ensures { IsOfSource DOCUMENT_LIMIT (IsOfBytes name.now) (S.left input.old) (S.left input.new) (S.faults input.old) (S.faults input.new) result }
{
    match read_source(alloc, input, DOCUMENT_LIMIT) {
        Ok(bytes) => judge_bytes(alloc, name, bytes.items()),
        Err(verdict) => verdict,
    }
}

/// Tells a text of the program's own.
fn tell(alloc: Global, text: &[u8]) -> Verdict
    ensures { IsTold text.now result }
{
    match Listed::from_slice(alloc, text) {
        Ok(text) => Verdict::Shown(text),
        Err(_) => Verdict::Memory,
    }
}

/// Does what a word asks for. What asks for no header leaves the source unread.
fn judge_word<S: Source>(alloc: Global, word: &[u8], input: &mut S) -> Verdict
    ensures { IsOfWord word.now (S.left input.old) (S.left input.new) (S.faults input.old) (S.faults input.new) result }
{
    match request_of(word) {
        None => Verdict::Usage,
        Some(Request::Help) => tell(alloc, HELP),
        Some(Request::Version) => tell(alloc, VERSION),
        Some(Request::Header) => judge_source(alloc, word, input),
    }
}

/// Does what the words ask for, which must be one.
fn judge<S: Source>(alloc: Global, words: &[String], input: &mut S) -> Verdict
    ensures { IsJudged (map string_bytes words.now) (S.left input.old) (S.left input.new) (S.faults input.old) (S.faults input.new) result }
{
    match words {
        [word] => judge_word(alloc, word.as_bytes(), input),
        _ => Verdict::Usage,
    }
}

/// Does all that the program does: reads the word and the document, and writes the header of its text, or why there is none, or what the program
/// says of itself. The first clause has three parts: what was read and judged, what was said, and the status. The second says that each fault is
/// told. The third says that the header of a document that nothing refuses is written, if memory suffices.
pub fn oac_main<S: Source, K: Sink>(
    alloc: Global,
    words: &[String],
    input: &mut S,
    out: &mut K,
) -> Status
    ensures judged { (verdict : Verdict)
        × IsJudged (map string_bytes words.now) (S.left input.old) (S.left input.new) (S.faults input.old) (S.faults input.new) verdict
        × IsSaid (K.written out.old) (K.written out.new) (K.faults out.old) (K.faults out.new) (text_for verdict) (status_for verdict) result }
    ensures told { FaultsAreTold (S.faults input.old) (S.faults input.new) (K.faults out.old) (K.faults out.new) result }
    ensures complete { IsComplete (map string_bytes words.now) (S.left input.old) (K.written out.old) (K.written out.new) (S.faults input.old) (S.faults input.new) (K.faults out.old) (K.faults out.new) result }
{
    let verdict = judge(alloc, words, input);
    say(out, &verdict)
}
