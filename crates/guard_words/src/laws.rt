//! What holds of guards and of gathered slots, for the crates above.

ghost use Rattle.guard_words.specs.Laws.{GuardsFollow, GatheredFollow};

/// What a register's guard is after another was put, after a check passed, and after one was cleared; and which register is
/// the next to clear.
#[tactic(auto, using(crate::proofs::Rows::guards_follow))]
pub fn guards_follow()
    ensures { GuardsFollow }
{}

/// A slot is gathered exactly if it was added and isn't 0.
#[tactic(auto, using(crate::proofs::Rows::gathered_follow))]
pub fn gathered_follow()
    ensures { GatheredFollow }
{}
