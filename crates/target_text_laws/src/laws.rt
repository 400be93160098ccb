//! What holds of every target that bytes spell.

ghost use Rattle.target_text_laws.specs.TargetStandsFor.{TargetsAreWithin, TargetStandsForOne, TargetsAreSaid};

/// Each target that bytes spell by the grammar is within the limits.
#[tactic(auto, using(crate::proofs::TargetsSaid::targets_are_within))]
pub fn targets_are_within()
    ensures { TargetsAreWithin }
{}

/// Bytes spell at most one target.
#[tactic(auto, using(crate::proofs::TargetsSaid::target_stands_for_one))]
pub fn target_stands_for_one()
    ensures { TargetStandsForOne }
{}

/// Bytes spell a target exactly if every line is plain and of at most 200 bytes, the target is within the limits, and
/// the words of the lines that aren't skipped are those of its canonical spelling.
pub fn targets_are_said()
    ensures { TargetsAreSaid }
{}
