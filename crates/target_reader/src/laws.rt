//! What holds of the spellings of targets.

ghost use Rattle.target_reader.specs.Laws.{SpellingsSpell};

/// The canonical spelling of a target within the limits spells that target by the grammar. So what `read_target` answers to
/// what `show_target` gives is the target that was shown.
#[tactic(auto, using(crate::proofs::Spelled::spellings_spell))]
pub fn spellings_spell()
    ensures { SpellingsSpell }
{}
