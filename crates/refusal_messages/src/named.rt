//! The register that is named if a text is refused.

ghost use Rattle.std.specs.Prelude.{◌+◌, ◌<◌, ◌^◌, length, Some, Ok, IfOk};
ghost use Rattle.oa_text.specs.Lines.{lines_of};
ghost use Rattle.line_words.specs.Answered.{Answers};
ghost use Rattle.norm_lang.specs.Limits.{IsWithinLimits};
ghost use Rattle.refusal_messages.specs.Named.{text_in, IsNamedIn, IsNamed, IsNamedFor};

use line_words::fault::ParseError;
use norm_lang::text::{Reg, Text};
use norm_parser::{Cursor, read_front, read_version};
use rule_registers::register_at_fault;
use statuses::{Refusal, Status};
use std::alloc::Global;

/// What is found of the register to name.
#[derive(Clone, Copy)]
pub enum Blame {
    /// The first that is at fault; none if the rule blames none.
    Found(Option<Reg>),
    /// There was no memory to find it.
    NoMemory,
}

/// The text with which bytes begin.
fn text_in(alloc: Global, bytes: &[u8]) -> Result<Text, ParseError>
    requires { length (lines_of bytes.now) + 1 < 2 ^ 32 }
    ensures exact { Answers (λ text. text) result (text_in bytes.now) }
    ensures within { IfOk result (λ text. IsWithinLimits text) }
{
    let mut cursor = Cursor::new(bytes);
    let version = read_version(b"oa", &mut cursor)?;
    let text = read_front(alloc, version, &mut cursor)?;
    Ok(text)
}

/// The first register that is at fault in a text.
fn register_in(alloc: Global, text: Text, refusal: Refusal) -> Blame
    requires within { IsWithinLimits text }
    ensures { IsNamedIn (Ok text) refusal result }
{
    match register_at_fault(alloc, &text, refusal) {
        Ok(found) => Blame::Found(found),
        Err(_) => Blame::NoMemory,
    }
}

/// The same in the text with which bytes begin; none if they are no text.
fn named(alloc: Global, bytes: &[u8], refusal: Refusal) -> Blame
    requires { length (lines_of bytes.now) + 1 < 2 ^ 32 }
    ensures { IsNamed bytes.now refusal result }
{
    match text_in(alloc, bytes) {
        Ok(text) => register_in(alloc, text, refusal),
        Err(ParseError::Fault(_)) => Blame::Found(None),
        Err(ParseError::Memory) => Blame::NoMemory,
    }
}

/// The register that the message on a status names, if these bytes were read: the first that is at fault by the rule that is
/// broken; none if the rule blames none, or if no rule is broken.
pub fn named_for(alloc: Global, bytes: &[u8], status: Status) -> Blame
    requires { length (lines_of bytes.now) + 1 < 2 ^ 32 }
    ensures { IsNamedFor (Some bytes.now) status result }
{
    match status {
        Status::Refused { refusal } => named(alloc, bytes, refusal),
        _ => Blame::Found(None),
    }
}
