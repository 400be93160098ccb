//! What the verifier answers to a target for a text.

ghost use Rattle.std.specs.Prelude.{◌+◌, ◌<◌, ◌^◌, length};
ghost use Rattle.oa_text.specs.Lines.{lines_of};
ghost use Rattle.norm_lang.specs.Limits.{IsWithinLimits};

use crate::answer::{refused, told};
use barrier_check::{Barred, Flaw, FlawKind, VerifyError, verify};
use norm_check::{Normal, check};
use norm_lang::text::Text;
use norm_parser::parse;
use row_spelling::{RowError, few};
use std::alloc::{AllocError, Global};
use target_reader::read_target;

/// The word for a kind of flaw.
fn kind_word(kind: FlawKind) -> &'static str {
    match kind {
        FlawKind::ErasesDifferently => "differs",
        FlawKind::UncheckedUse => "unchecked",
        FlawKind::Unguarded => "unguarded",
        FlawKind::GuardAfterCheck => "late",
        FlawKind::GuardDropped => "dropped",
    }
}

/// A flaw, with the operation's number, its method and the instruction.
fn flaw_shown(alloc: Global, flaw: Flaw) -> Result<String, AllocError> {
    let word = kind_word(flaw.kind);
    let method = if flaw.wrapup { "wrap" } else { "gen" };
    format!(in alloc; "{word} op {} {method} {}", flaw.op, flaw.at)
}

/// `barred`, or the first flaw.
fn verdict(alloc: Global, verified: Result<Barred, VerifyError>) -> Result<String, AllocError> {
    match verified {
        Ok(_) => String::from_str(alloc, "barred"),
        Err(VerifyError::Flawed(flaw)) => flaw_shown(alloc, flaw),
        Err(VerifyError::Memory) => String::from_str(alloc, "memory ran out"),
    }
}

/// What the verifier answers to the target that bytes spell, or the fault of the target.
fn target_verdict(alloc: Global, bytes: &[u8], normal: &Normal) -> Result<String, AllocError>
    requires { length (lines_of bytes.now) + 1 < 2 ^ 32 }
{
    match read_target(alloc, bytes) {
        Ok(target) => verdict(alloc, verify(alloc, target, normal)),
        Err(error) => refused(alloc, error),
    }
}

/// The same for a text, which has to be in normal form.
fn judged_for(alloc: Global, bytes: &[u8], text: Text) -> Result<String, RowError>
    requires few { length (lines_of bytes.now) + 1 < 2 ^ 32 }
    requires within { IsWithinLimits text }
{
    match check(alloc, text) {
        Ok(normal) => told(target_verdict(alloc, bytes, &normal)),
        Err(_) => Err(RowError::Wrong),
    }
}

/// What stands before the first `>`, and what stands after it.
fn parts(bytes: &[u8]) -> Option<(&[u8], &[u8])> {
    let at = bytes.iter().position(|b| *b == b'>')?;
    Some((&bytes[..at], &bytes[at + 1..]))
}

/// What the verifier answers to a target for a text, or the first fault.
fn pair_answer(alloc: Global, before: &[u8], after: &[u8]) -> Result<String, RowError>
    requires text { length (lines_of before.now) + 1 < 2 ^ 32 }
    requires target { length (lines_of after.now) + 1 < 2 ^ 32 }
{
    match parse(alloc, before) {
        Ok(text) => judged_for(alloc, after, text),
        Err(error) => told(refused(alloc, error)),
    }
}

/// What the verifier answers to the target after `>` for the text before it, or the first fault.
pub(crate) fn verify_answer(alloc: Global, bytes: &[u8]) -> Result<String, RowError> {
    match parts(bytes) {
        Some((before, after)) if few(before) && few(after) => pair_answer(alloc, before, after),
        _ => Err(RowError::Wrong),
    }
}
