//! What holds of barred targets and of first flaws.

ghost use Rattle.barrier_check.specs.Laws.{FirstFlawIsOne, FlawedIsNotBarred};

/// A target has at most one first flaw for a text.
#[tactic(auto, using(crate::proofs::FirstFlaw::first_flaw_is_one))]
pub fn first_flaw_is_one()
    ensures { FirstFlawIsOne }
{}

/// A target that has a first flaw for a text isn't barred for it.
#[tactic(auto, using(crate::proofs::FirstFlaw::flawed_is_not_barred))]
pub fn flawed_is_not_barred()
    ensures { FlawedIsNotBarred }
{}
