//! The code that a caller runs: that of a target, or that of a text that is run as it is.

ghost use Rattle.std.specs.Prelude.{◌≡◌, length, option_copied, option_map, slice_get, map};
ghost use Rattle.target_code.specs.declared.target.TargetInstr.TheVariants.{Plain};
ghost use Rattle.target_code.specs.Bare.{bare};
ghost use Rattle.caller_parts.specs.Codes.{source_shown, code_shown, step_shown, shown_at};
ghost use Rattle.caller_parts.specs.Operands.{method_code};

use norm_lang::text::{FieldDecl, Instr, Op, Reg, Text};
use target_code::target::{Target, TargetInstr, TargetOp};

/// What a program is made of.
#[derive(Clone, Copy)]
pub enum Source<'a> {
    /// A target.
    Barred(&'a Target),
    /// A text that is run as it is, each of its instructions by itself.
    Bare(&'a Text),
}

/// The code of a method.
#[derive(Clone, Copy)]
pub enum Code<'a> {
    /// That of a target.
    Barred(&'a [TargetInstr]),
    /// That of a text.
    Bare(&'a [Instr]),
}

/// An instruction of a method, as one of a target.
#[derive(Clone, Copy)]
pub enum Step<'a> {
    /// An instruction of the language.
    Plain(&'a Instr),
    /// A check.
    Check,
    /// A guard of the node in the register.
    Guard(Reg),
}

#[inline(always)]
fn step_of(instr: &TargetInstr) -> Step<'_>
    ensures { step_shown result ≡ instr.now }
{
    match instr {
        TargetInstr::Plain(instr) => Step::Plain(instr),
        TargetInstr::Check => Step::Check,
        TargetInstr::Guard(register) => Step::Guard(*register),
    }
}

impl<'a> Code<'a> {
    /// How many instructions it has.
    #[inline(always)]
    #[tactic(auto, using(crate::proofs::Bare::bare_length))]
    pub fn len(self) -> usize
        ensures { result ≡ length (code_shown self.entry) }
    {
        match self {
            Code::Barred(code) => code.len(),
            Code::Bare(code) => code.len(),
        }
    }

    /// The instruction at a place, if there is one.
    #[inline(always)]
    #[tactic(auto, using(crate::proofs::Bare::bare_there))]
    pub fn at(self, at: usize) -> Option<Step<'a>>
        ensures { shown_at result ≡ slice_get (code_shown self.entry) at }
    {
        match self {
            Code::Barred(code) => match code.get(at) {
                Some(instr) => Some(step_of(instr)),
                None => None,
            },
            Code::Bare(code) => match code.get(at) {
                Some(instr) => Some(Step::Plain(instr)),
                None => None,
            },
        }
    }
}

fn target_op(target: &Target, op: u8) -> Option<&TargetOp>
    ensures { option_copied result ≡ slice_get target.now.ops op }
{
    target.ops.items().get(op as usize)
}

fn text_op(text: &Text, op: u8) -> Option<&Op>
    ensures { option_copied result ≡ slice_get text.now.ops op }
{
    text.ops.items().get(op as usize)
}

fn target_code(target: &Target, op: u8, wrapup: bool) -> &[TargetInstr]
    ensures { result.now ≡ method_code (slice_get target.now.ops op) wrapup }
{
    match target_op(target, op) {
        None => &[],
        Some(op) => {
            if wrapup {
                op.wrapup.items()
            } else {
                op.generator.items()
            }
        }
    }
}

fn text_code(text: &Text, op: u8, wrapup: bool) -> &[Instr]
    ensures { map Plain result.now ≡ method_code (slice_get (bare text.now).ops op) wrapup }
{
    match text_op(text, op) {
        None => &[],
        Some(op) => {
            if wrapup {
                op.wrapup.items()
            } else {
                op.generator.items()
            }
        }
    }
}

impl<'a> Source<'a> {
    /// The code of a method; none if there is no such operation.
    #[inline(always)]
    pub(crate) fn code(self, op: u8, wrapup: bool) -> Code<'a>
        ensures { code_shown result ≡ method_code (slice_get (source_shown self.entry).ops op) wrapup }
    {
        match self {
            Source::Barred(target) => Code::Barred(target_code(target, op, wrapup)),
            Source::Bare(text) => Code::Bare(text_code(text, op, wrapup)),
        }
    }

    /// The fields of its kinds.
    pub(crate) fn fields(self) -> &'a [FieldDecl]
        ensures { result.now ≡ (source_shown self.entry).fields }
    {
        match self {
            Source::Barred(target) => target.fields.items(),
            Source::Bare(text) => text.fields.items(),
        }
    }
}
