//! What a caller finds in a bare target.

ghost use Rattle.bare_targets.specs.BareLaws.{BareTextsAreRunnable, BareOpsAreTheTexts, BareCodeIsPlain, PlainStands, PlainRuns};

/// Callers may run each text in normal form within the limits as it is: erasing leaves it as it is.
#[tactic(auto, using(crate::proofs::Runnable::bare_texts_are_runnable))]
pub fn bare_texts_are_runnable()
    ensures { BareTextsAreRunnable }
{}

/// The operations of a bare target are those of its text, with each instruction by itself: no check and no guard stands among them, and
/// local code runs as the text's.
#[tactic(auto, using(crate::proofs::PlainCode::ops_are_the_texts, crate::proofs::PlainCode::code_is_plain, crate::proofs::PlainCode::plain_stands, crate::proofs::PlainCode::plain_runs))]
pub fn bare_code_is_plain()
    ensures ops { BareOpsAreTheTexts }
    ensures code { BareCodeIsPlain }
    ensures stands { PlainStands }
    ensures runs { PlainRuns }
{}
