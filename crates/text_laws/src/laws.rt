//! What holds of every text that bytes stand for, of spellings, and of the shipped texts.

ghost use Rattle.norm_lang.specs.Laws.{TextsAreWithin, StandForOne, SpellingsStand, ShippedAreWithin};
ghost use Rattle.text_laws.specs.LinesAndWords.{LinesAreCut, WordsAreRuns, NamesAreShort};
ghost use Rattle.text_laws.specs.StandsFor.{TextsAreSaid};

/// Each text for which bytes stand by the grammar is within the limits.
#[tactic(auto, using(crate::proofs::DraftLimits::texts_are_within))]
pub fn texts_are_within()
    ensures { TextsAreWithin }
{}

/// Bytes stand for at most one text.
#[tactic(auto, using(crate::proofs::OneText::stand_for_one))]
pub fn stand_for_one()
    ensures { StandForOne }
{}

/// The canonical spelling of a text within the limits stands for that text by the grammar.
#[tactic(auto, using(crate::proofs::SpellingStands::spellings_stand))]
pub fn spellings_stand()
    ensures { SpellingsStand }
{}

/// The set of each count of buckets from 1 to 64 is within the limits, and so is the queue.
#[tactic(auto, using(norm_lang::proofs::ShippedLimits::shipped_are_within))]
pub fn shipped_are_within()
    ensures { ShippedAreWithin }
{}

/// The lines that are read of bytes are theirs: what stands before each newline, and what follows the last one.
pub fn lines_are_cut()
    ensures { LinesAreCut }
{}

/// The words that are read of a line are its longest runs without a space or tab.
pub fn words_are_runs()
    ensures { WordsAreRuns }
{}

/// A name has 1 to 16 bytes: a lower-case letter, then lower-case letters, digits and `_`.
pub fn names_are_short()
    ensures { NamesAreShort }
{}

/// Bytes stand for a text exactly if every line is plain and of at most 200 bytes, the text is within the limits, and
/// the words of the lines that aren't skipped are those of its spelling in a version in which it may stand, or those of a
/// version line and of a `use` line that names it.
pub fn texts_are_said()
    ensures { TextsAreSaid }
{}
