//! Whether erasing a target gives a text, and if not, where they differ first.

ghost use Rattle.std.specs.Prelude.{◌≡◌, ◌≤◌, length, IfOk};
ghost use Rattle.std.specs.Bool.{Decides};
ghost use Rattle.target_code.specs.Erasing.{erased, erased_op, part_of, ErasesTo, AreAlike};
ghost use Rattle.barrier_check.specs.declared.flaw.FlawKind.TheVariants.{ErasesDifferently};
ghost use Rattle.barrier_check.specs.declared.flaw.VerifyError.TheVariants.{Flawed};
ghost use Rattle.barrier_check.specs.Comparing.{IsSubject, Differs, IsSamePart, IsSameOp};
ghost use Rattle.barrier_check.specs.Scopes.{InMethod, InOp, Anywhere, Tells};

use crate::code::erases_to;
use crate::flaw::{Flaw, FlawKind, VerifyError};
use crate::same::are_same;
use crate::subject::Subject;
use norm_lang::text::{Op, Text};
use std::alloc::{AllocError, Global};
use target_code::target::{Target, TargetOp};

/// Whether a target and a text declare the same, and have equally many operations.
#[tactic(auto, using(crate::proofs::Differing::alike))]
fn are_alike(target: &Target, text: &Text) -> bool
    ensures { Decides result (AreAlike (erased target.now) text.now) }
{
    are_same(target.kinds.items(), text.kinds.items())
        && are_same(target.fields.items(), text.fields.items())
        && are_same(target.roots.items(), text.roots.items())
        && are_same(target.nodes.items(), text.nodes.items())
        && target.ops.items().len() == text.ops.items().len()
}

/// Whether what is left of an operation's method is the source's. With the generator go the operation's name and its
/// count of arguments.
fn is_same_part(alloc: Global, op: &TargetOp, source: &Op, wrapup: bool) -> Result<bool, AllocError>
    ensures { IfOk result (λ same. Decides same (part_of wrapup (erased_op op.now) ≡ part_of wrapup source.now)) }
{
    if wrapup {
        return erases_to(alloc, op.wrapup.items(), source.wrapup.items());
    }
    let generator = erases_to(alloc, op.generator.items(), source.generator.items())?;
    Ok(generator && op.name.items() == source.name.items() && op.args == source.args)
}

fn differs(op: u8, wrapup: bool) -> VerifyError
    ensures { result ≡ Flawed (record { kind = ErasesDifferently; op = op; wrapup = wrapup; at = 0 }) }
{
    VerifyError::Flawed(Flaw {
        kind: FlawKind::ErasesDifferently,
        op,
        wrapup,
        at: 0,
    })
}

/// Compares what is left of a method.
fn compare_part(alloc: Global, subject: &Subject, wrapup: bool) -> Result<(), VerifyError>
    requires subject { IsSubject subject.now.target.now subject.now.text.now subject.now.number subject.now.op.now subject.now.source.now }
    requires alike { AreAlike (erased subject.now.target.now) subject.now.text.now }
    ensures { Tells (IsSamePart subject.now.target.now subject.now.text.now subject.now.number wrapup) (Differs subject.now.target.now subject.now.text.now) (InMethod subject.now.number wrapup) result }
{
    if is_same_part(alloc, subject.op, subject.source, wrapup)? {
        Ok(())
    } else {
        Err(differs(subject.number, wrapup))
    }
}

/// Compares what is left of both methods, the generator first.
#[tactic(auto, using(crate::proofs::Differing::in_generator, crate::proofs::Differing::in_wrapup))]
fn compare_op(alloc: Global, subject: &Subject) -> Result<(), VerifyError>
    requires subject { IsSubject subject.now.target.now subject.now.text.now subject.now.number subject.now.op.now subject.now.source.now }
    requires alike { AreAlike (erased subject.now.target.now) subject.now.text.now }
    ensures { Tells (IsSameOp subject.now.target.now subject.now.text.now subject.now.number) (Differs subject.now.target.now subject.now.text.now) (InOp subject.now.number) result }
{
    compare_part(alloc, subject, false)?;
    compare_part(alloc, subject, true)
}

fn compare_ops(alloc: Global, target: &Target, text: &Text) -> Result<(), VerifyError>
    requires few { length target.now.ops ≤ 16 }
    requires alike { AreAlike (erased target.now) text.now }
    ensures { Tells (ErasesTo target.now text.now) (Differs target.now text.now) Anywhere result }
{
    let ops = target.ops.items();
    let sources = text.ops.items();
    for (number, op) in ops.iter().enumerate() {
        let subject = Subject {
            target,
            text,
            number: number as u8,
            op,
            source: &sources[number],
        };
        compare_op(alloc, &subject)?;
    }
    Ok(())
}

/// Compares what is left of a target with a text, up to where they differ first. The cost grows with the count of
/// instructions.
pub(crate) fn compare(alloc: Global, target: &Target, text: &Text) -> Result<(), VerifyError>
    requires few { length target.now.ops ≤ 16 }
    ensures { Tells (ErasesTo target.now text.now) (Differs target.now text.now) Anywhere result }
{
    if !are_alike(target, text) {
        return Err(differs(0, false));
    }
    compare_ops(alloc, target, text)
}
