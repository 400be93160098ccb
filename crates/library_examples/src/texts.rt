//! From bytes to a text in normal form, and to compiled code that is barred for it.

ghost use Rattle.std.specs.Prelude.{◌+◌, ◌<◌, ◌^◌, length, IfOk, IfErr};
ghost use Rattle.oa_text.specs.Lines.{lines_of};
ghost use Rattle.norm_lang.specs.Limits.{IsWithinLimits};
ghost use Rattle.library_examples.specs.Texts.{IsJudgedText, IsNormalTextOf, IsBarredFor, IsTextProblem, IsTargetProblem, IsVerifiedAs};

use barrier_check::{Barred, Flaw, VerifyError, verify};
use barrier_compiler::compile;
use norm_check::{CheckError, Normal, Refusal, check};
use norm_lang::text::Text;
use norm_parser::{ParseError, ParseFault, parse};
use std::alloc::Global;
use target_reader::read_target;

/// Why bytes give no text in normal form.
pub enum TextProblem {
    Memory,
    /// They spell no text: the first faulty line, and its first fault.
    Fault(ParseFault),
    /// They spell a text that breaks a rule: the first broken rule, and its place.
    Refused(Refusal),
}

/// Why bytes give no target that is barred for a text.
pub enum TargetProblem {
    Memory,
    /// They spell no target: the first faulty line, and its first fault.
    Fault(ParseFault),
    /// They spell a target with this flaw.
    Flawed(Flaw),
}

/// The text, if it is in normal form.
fn judge_text(alloc: Global, text: Text) -> Result<Normal, TextProblem>
    requires { IsWithinLimits text }
    ensures { IsJudgedText text result }
{
    match check(alloc, text) {
        Ok(normal) => Ok(normal),
        Err(CheckError::Memory) => Err(TextProblem::Memory),
        Err(CheckError::Refused(refusal)) => Err(TextProblem::Refused(refusal)),
    }
}

/// The text in normal form that the bytes spell. They have fewer than 2^32 - 1 lines.
///
/// # Errors
/// The first fault of the bytes, the first rule that their text breaks, or that memory ran out.
pub fn read_normal(alloc: Global, input: &[u8]) -> Result<Normal, TextProblem>
    requires { length (lines_of input.now) + 1 < 2 ^ 32 }
    ensures normal { IfOk result (λ text. IsNormalTextOf input.now text) }
    ensures problem { IfErr result (λ problem. IsTextProblem input.now problem) }
{
    match parse(alloc, input) {
        Ok(text) => judge_text(alloc, text),
        Err(ParseError::Memory) => Err(TextProblem::Memory),
        Err(ParseError::Fault(fault)) => Err(TextProblem::Fault(fault)),
    }
}

/// The code that `compile` makes of the text that the bytes spell: barred for it, so that callers may run it over recycled nodes.
/// They have fewer than 2^32 - 1 lines.
///
/// # Errors
/// As those of `read_normal`.
pub fn compile_bytes(alloc: Global, input: &[u8]) -> Result<Barred, TextProblem>
    requires { length (lines_of input.now) + 1 < 2 ^ 32 }
    ensures barred { IfOk result (λ barred. IsBarredFor input.now barred) }
    ensures problem { IfErr result (λ problem. IsTextProblem input.now problem) }
{
    let normal = read_normal(alloc, input)?;
    match compile(alloc, &normal) {
        Ok(target) => Ok(Barred::compiled(target, normal)),
        Err(_) => Err(TextProblem::Memory),
    }
}

/// A target that others compiled, as its bytes spell it, if it is barred for the text. They have fewer than 2^32 - 1 lines.
///
/// # Errors
/// The first fault of the bytes, the first flaw of their target, or that memory ran out.
pub fn verify_bytes(alloc: Global, input: &[u8], normal: &Normal) -> Result<Barred, TargetProblem>
    requires { length (lines_of input.now) + 1 < 2 ^ 32 }
    ensures barred { IfOk result (λ barred. IsVerifiedAs input.now normal.now barred) }
    ensures problem { IfErr result (λ problem. IsTargetProblem input.now normal.now problem) }
{
    let target = match read_target(alloc, input) {
        Ok(target) => target,
        Err(ParseError::Memory) => return Err(TargetProblem::Memory),
        Err(ParseError::Fault(fault)) => return Err(TargetProblem::Fault(fault)),
    };
    match verify(alloc, target, normal) {
        Ok(barred) => Ok(barred),
        Err(VerifyError::Memory) => Err(TargetProblem::Memory),
        Err(VerifyError::Flawed(flaw)) => Err(TargetProblem::Flawed(flaw)),
    }
}
