//! What holds of lines and tokens, whatever their bytes.

ghost use Rattle.oa_text.specs.Slices.{TokensAreSlices, TokensHoldAll};

/// Each token of a line is a slice of it that begins at the token's column, isn't empty and has no blank, and blanks
/// or the line's ends stand round it.
#[tactic(auto, using(crate::proofs::SliceLemmas::tokens_are_slices))]
pub fn tokens_are_slices()
    ensures { TokensAreSlices }
{}

/// Each byte of a line is a blank or one of a token's.
#[tactic(auto, using(crate::proofs::SliceLemmas::tokens_hold_all))]
pub fn tokens_hold_all()
    ensures { TokensHoldAll }
{}
