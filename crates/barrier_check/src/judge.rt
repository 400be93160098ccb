//! Judging the instructions of a target: one, a method, an operation, and all operations.

ghost use Rattle.std.specs.Prelude.{◌≡◌, ◌≤◌, Some, slice_get, length};
ghost use Rattle.norm_lang.specs.Limits.{IsWithinLimits};
ghost use Rattle.norm_paths.specs.Found.{IsOpWithin};
ghost use Rattle.norm_paths.specs.OpFound.{AreOpFacts};
ghost use Rattle.target_code.specs.Barred.{HasFlaw};
ghost use Rattle.target_code.specs.Paths.{target_code_of};
ghost use Rattle.target_code.specs.TargetLimits.{IsTargetWithinLimits};
ghost use Rattle.target_flaws.specs.Needs.{AreNeeds};
ghost use Rattle.target_flaws.specs.Found.{AreTargetFacts};
ghost use Rattle.barrier_check.specs.Comparing.{IsSubject};
ghost use Rattle.barrier_check.specs.FlawsTold.{IsFirstKind};
ghost use Rattle.barrier_check.specs.Judging.{IsTargetOpWithin, IsTargetInstrWithin};
ghost use Rattle.barrier_check.specs.Scopes.{AtPlace, InMethod, InOp, Anywhere, Judges};

use crate::flaw::{Flaw, FlawKind, VerifyError};
use crate::subject::Subject;
use norm_lang::text::Text;
use norm_paths::OpFacts;
use std::alloc::Global;
use target_code::target::{Target, TargetInstr, target_code_of};
use target_flaws::{Needs, TargetFacts, flaws};

/// The first kind of flaw whose answer is yes.
#[tactic(auto, using(crate::proofs::Answering::none_yes, crate::proofs::Answering::first_yes, crate::proofs::Answering::second_yes, crate::proofs::Answering::third_yes, crate::proofs::Answering::fourth_yes))]
fn first_kind(answers: &[bool; 4]) -> Option<FlawKind>
    ensures { IsFirstKind answers.now result }
{
    if answers[0] {
        Some(FlawKind::UncheckedUse)
    } else if answers[1] {
        Some(FlawKind::Unguarded)
    } else if answers[2] {
        Some(FlawKind::GuardAfterCheck)
    } else if answers[3] {
        Some(FlawKind::GuardDropped)
    } else {
        None
    }
}

/// Judges an instruction at its place, by what the operation of the text asks and what is known of the method.
fn judge_instr(
    subject: &Subject,
    needs: &Needs,
    facts: &TargetFacts,
    wrapup: bool,
    at: usize,
    instr: &TargetInstr,
) -> Result<(), VerifyError>
    requires subject { IsSubject subject.now.target.now subject.now.text.now subject.now.number subject.now.op.now subject.now.source.now }
    requires within { IsOpWithin subject.now.source.now }
    requires limits { IsTargetInstrWithin instr.now }
    requires needs { AreNeeds subject.now.source.now needs.now }
    requires facts { AreTargetFacts (target_code_of subject.now.op.now wrapup) facts.now }
    requires stands { slice_get (target_code_of subject.now.op.now wrapup) at ≡ Some instr.now }
    requires few { at ≤ 65535 }
    ensures { Judges (HasFlaw subject.now.target.now subject.now.text.now) (AtPlace subject.now.number wrapup at) result }
{
    let answers = flaws(needs, facts, wrapup, at, instr);
    match first_kind(&answers) {
        None => Ok(()),
        Some(kind) => Err(VerifyError::Flawed(Flaw {
            kind,
            op: subject.number,
            wrapup,
            at: at as u16,
        })),
    }
}

/// Judges the instructions of a method by what is known of it, up to the first that has a flaw.
#[tactic(auto, using(crate::proofs::Parts::none_above, crate::proofs::Parts::one_further, crate::proofs::Whole::whole_method))]
fn judge_code(
    subject: &Subject,
    needs: &Needs,
    facts: &TargetFacts,
    wrapup: bool,
    code: &[TargetInstr],
) -> Result<(), VerifyError>
    requires subject { IsSubject subject.now.target.now subject.now.text.now subject.now.number subject.now.op.now subject.now.source.now }
    requires within { IsOpWithin subject.now.source.now }
    requires limits { IsTargetOpWithin subject.now.op.now }
    requires needs { AreNeeds subject.now.source.now needs.now }
    requires facts { AreTargetFacts (target_code_of subject.now.op.now wrapup) facts.now }
    requires code { code.now ≡ target_code_of subject.now.op.now wrapup }
    ensures { Judges (HasFlaw subject.now.target.now subject.now.text.now) (InMethod subject.now.number wrapup) result }
{
    for (at, instr) in code.iter().enumerate() {
        judge_instr(subject, needs, facts, wrapup, at, instr)?;
    }
    Ok(())
}

/// Judges the instructions of a method, up to the first that has a flaw.
fn judge_method(
    alloc: Global,
    subject: &Subject,
    needs: &Needs,
    wrapup: bool,
) -> Result<(), VerifyError>
    requires subject { IsSubject subject.now.target.now subject.now.text.now subject.now.number subject.now.op.now subject.now.source.now }
    requires within { IsOpWithin subject.now.source.now }
    requires limits { IsTargetOpWithin subject.now.op.now }
    requires needs { AreNeeds subject.now.source.now needs.now }
    ensures { Judges (HasFlaw subject.now.target.now subject.now.text.now) (InMethod subject.now.number wrapup) result }
{
    let code = target_code_of(subject.op, wrapup);
    let facts = TargetFacts::of_code(alloc, code)?;
    judge_code(subject, needs, &facts, wrapup, code)
}

/// Judges both methods of an operation, the generator first.
#[tactic(auto, using(crate::proofs::Parts::flawed_in_generator, crate::proofs::Parts::judged_in_wrapup))]
fn judge_methods(alloc: Global, subject: &Subject, needs: &Needs) -> Result<(), VerifyError>
    requires subject { IsSubject subject.now.target.now subject.now.text.now subject.now.number subject.now.op.now subject.now.source.now }
    requires within { IsOpWithin subject.now.source.now }
    requires limits { IsTargetOpWithin subject.now.op.now }
    requires needs { AreNeeds subject.now.source.now needs.now }
    ensures { Judges (HasFlaw subject.now.target.now subject.now.text.now) (InOp subject.now.number) result }
{
    judge_method(alloc, subject, needs, false)?;
    judge_method(alloc, subject, needs, true)
}

/// Judges an operation of a target by what is known of the text's.
fn judge_by(alloc: Global, subject: &Subject, facts: &OpFacts) -> Result<(), VerifyError>
    requires subject { IsSubject subject.now.target.now subject.now.text.now subject.now.number subject.now.op.now subject.now.source.now }
    requires within { IsOpWithin subject.now.source.now }
    requires limits { IsTargetOpWithin subject.now.op.now }
    requires facts { AreOpFacts subject.now.source.now facts.now }
    ensures { Judges (HasFlaw subject.now.target.now subject.now.text.now) (InOp subject.now.number) result }
{
    let needs = Needs::of_op(subject.source, facts);
    judge_methods(alloc, subject, &needs)
}

/// Judges an operation of a target.
#[tactic(auto, using(norm_paths::proofs::Founding::sized_within))]
fn judge_op(alloc: Global, subject: &Subject) -> Result<(), VerifyError>
    requires subject { IsSubject subject.now.target.now subject.now.text.now subject.now.number subject.now.op.now subject.now.source.now }
    requires within { IsOpWithin subject.now.source.now }
    requires limits { IsTargetOpWithin subject.now.op.now }
    ensures { Judges (HasFlaw subject.now.target.now subject.now.text.now) (InOp subject.now.number) result }
{
    let facts = OpFacts::of_op(alloc, subject.source)?;
    judge_by(alloc, subject, &facts)
}

/// Judges a target for a text with as many operations. The cost grows with the count of instructions.
#[tactic(auto, using(crate::proofs::Parts::none_earlier, crate::proofs::Parts::one_operation_further, crate::proofs::Whole::all_operations, crate::proofs::Parts::flawed_anywhere, norm_paths::proofs::Founding::op_within, norm_check::proofs::Tables::few_ops))]
pub(crate) fn judge_ops(alloc: Global, target: &Target, text: &Text) -> Result<(), VerifyError>
    requires target { IsTargetWithinLimits target.now }
    requires text { IsWithinLimits text.now }
    requires count { length target.now.ops ≡ length text.now.ops }
    ensures { Judges (HasFlaw target.now text.now) Anywhere result }
{
    let ops = target.ops.items();
    let sources = text.ops.items();
    for (number, op) in ops.iter().enumerate() {
        let subject = Subject {
            target,
            text,
            number: number as u8,
            op,
            source: &sources[number],
        };
        judge_op(alloc, &subject)?;
    }
    Ok(())
}
