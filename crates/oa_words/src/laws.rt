//! What holds of all words, for the crates above.

ghost use Rattle.std.specs.Prelude.{ℕ, ◌≤◌};
ghost use Rattle.oa_words.specs.Laws.{WordsStandApart, ReferencesSplit, StatusesSplit, HeadsSplit, StartsAsNamed, KindsHaveRanges, NodesHaveHomes};
ghost use Rattle.oa_words.specs.Starts.{Beginning, Suits};

use crate::shape::Shape;

/// Different words have different addresses, all below the count of words.
#[tactic(auto, using(crate::proofs::Places::stand_apart))]
pub fn words_stand_apart(shape: &Shape)
    ensures { WordsStandApart shape.now }
{}

/// A reference's word and its parts give each other back.
#[tactic(auto, using(crate::proofs::Parts::references_split))]
pub fn references_split()
    ensures { ReferencesSplit }
{}

/// A status's word and its parts give each other back.
#[tactic(auto, using(crate::proofs::Parts::statuses_split))]
pub fn statuses_split()
    ensures { StatusesSplit }
{}

/// The word of a head and its parts give each other back, whatever the number below which the top stands.
#[tactic(auto, using(crate::proofs::Parts::heads_split))]
pub fn heads_split()
    ghost tops: { ℕ }
    requires { 1 ≤ tops }
    ensures { HeadsSplit tops }
{}

/// The list of words at the start says of each word what its name does.
pub fn starts_as_named(shape: &Shape)
    ghost start: { Beginning }
    requires { Suits shape.now start }
    ensures { StartsAsNamed shape.now start }
{}

/// Each slot is in the range of its kind, and in no other.
pub fn kinds_have_ranges(shape: &Shape)
    ensures { KindsHaveRanges shape.now }
{
    shape.kept();
}

/// Each initial node stands in a slot of its kind.
pub fn nodes_have_homes(shape: &Shape)
    ghost start: { Beginning }
    requires { Suits shape.now start }
    ensures { NodesHaveHomes shape.now start }
{
    shape.kept();
}
