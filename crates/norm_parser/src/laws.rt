//! What holds of texts that are read from a line on.

ghost use Rattle.norm_parser.specs.FrontLaws.{FrontsAreTexts};

/// A text that is read from the line after the version line, up to the end of the input, is the text that the whole input
/// spells by the grammar.
#[tactic(auto, using(crate::proofs::FrontTexts::fronts_are_texts))]
pub fn fronts_are_texts()
    ensures { FrontsAreTexts }
{}
