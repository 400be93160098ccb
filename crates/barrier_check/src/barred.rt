//! Barred targets.

ghost use Rattle.std.specs.Prelude.{◌≡◌, ◌↔◌, ◌<◌, length, slice_get, Err, IsSomeAnd, IsTrue, IfOk, IfErr};
ghost use Rattle.norm_lang.specs.declared.text.Reg.TheVariants.{Ref};
ghost use Rattle.norm_lang.specs.Kept.{IsKept};
ghost use Rattle.norm_lang.specs.Limits.{IsWithinLimits};
ghost use Rattle.norm_lang.specs.NormalForm.{IsNormal};
ghost use Rattle.target_code.specs.Barred.{IsBarred};
ghost use Rattle.target_code.specs.TargetLimits.{IsTargetWithinLimits};
ghost use Rattle.barrier_check.specs.Paired.{IsSound};
ghost use Rattle.barrier_check.specs.Verified.{IsVerified};

use crate::erasing::compare;
use crate::flaw::VerifyError;
use crate::judge::judge_ops;
use norm_check::Normal;
use norm_lang::text::Text;
use std::alloc::Global;
use std::marker::Model;
use target_code::target::Target;

/// A target that is barred for its source. Contracts see it as both.
#[derive(Drop)]
pub struct Barred {
    target: Target,
    normal: Normal,
}

impl Model for Barred {
    ghost use Rattle.barrier_check.specs.Paired.{Paired};

    ghost Value = { Paired };

    ghost use Rattle.norm_lang.specs.Limits.{IsWithinLimits};
    ghost use Rattle.norm_lang.specs.NormalForm.{IsNormal};
    ghost use Rattle.target_code.specs.Barred.{IsBarred};
    ghost use Rattle.target_code.specs.TargetLimits.{IsTargetWithinLimits};
    ghost use Rattle.barrier_check.specs.Paired.{IsSound};

    ghost view = { λ b. record { target = b.target; source = b.normal } };

    ghost invariant = { λ b. IsSound (record { target = b.target; source = b.normal }) };
}

/// Judges a target for a text.
#[tactic(auto, using(crate::proofs::Verifying::is_barred))]
fn judge(alloc: Global, target: &Target, text: &Text) -> Result<(), VerifyError>
    requires target { IsTargetWithinLimits target.now }
    requires text { IsWithinLimits text.now }
    ensures barred { IfOk result (λ _. IsBarred target.now text.now) }
    ensures refused { IfErr result (λ e. IsVerified target.now text.now (Err e)) }
{
    compare(alloc, target, text)?;
    judge_ops(alloc, target, text)
}

/// Verifies a target for a text in normal form: it is answered if it is barred for the text, and dropped if it is
/// refused. How it was compiled isn't asked. The cost grows with the count of instructions.
///
/// # Errors
/// `Flawed` if the target isn't barred for the text: it tells that erasing gives another text, and where that differs
/// first; or else the first flaw of an instruction, in the order of operations, then the generator before the wrap-up,
/// then the order of instructions, then of kinds.
pub fn verify(alloc: Global, target: Target, normal: &Normal) -> Result<Barred, VerifyError>
    requires { IsTargetWithinLimits target }
    ensures { IsVerified target normal.now result }
{
    judge(alloc, &target, normal.text())?;
    let normal = normal.copy(alloc)?;
    Ok(Barred::compiled(target, normal))
}

impl Barred {
    /// A target that is barred for its text, as what `compile` answers is. It isn't verified, and takes no memory.
    pub fn compiled(target: Target, normal: Normal) -> Barred
        requires within { IsTargetWithinLimits target }
        requires barred { IsBarred target normal }
        ensures { result ≡ record { target = target; source = normal } }
    {
        normal.kept();
        Barred { target, normal }
    }

    /// What every barred target keeps: a law for those who hold one. The body reads a field, which makes the invariant known.
    pub fn kept(&self)
        ensures { IsSound self.now }
    {
        let _ = &self.target;
    }

    /// The target.
    pub fn target(&self) -> &Target
        ensures same { result.now ≡ self.now.target }
        ensures within { IsTargetWithinLimits result.now }
        ensures barred { IsBarred result.now self.now.source }
    {
        &self.target
    }

    /// The text that it is barred for, in normal form.
    pub fn normal(&self) -> &Normal
        ensures { result.now ≡ self.now.source }
    {
        &self.normal
    }

    /// The text that it is barred for.
    pub fn source(&self) -> &Text
        ensures same { result.now ≡ self.now.source }
        ensures within { IsWithinLimits result.now }
        ensures normal { IsNormal result.now }
    {
        self.normal.text()
    }

    /// Whether the wrap-up of an operation of the source, by its number, uses what a reference register held at the
    /// commit.
    pub fn is_kept(&self, op: u8, register: u8) -> bool
        requires op { op < length self.now.source.ops }
        requires register { register < 8 }
        ensures { IsSomeAnd (slice_get self.now.source.ops op) (λ o. IsTrue result ↔ IsKept o (Ref register)) }
    {
        self.normal.is_kept(op, register)
    }
}
