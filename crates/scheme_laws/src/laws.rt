//! What combined checks save.

ghost use Rattle.scheme_laws.specs.Compared.{ChecksAreFewer, SetsAreSame};

/// Of every method of every text the second scheme makes code with at most as many checks as the first scheme does.
pub fn checks_are_fewer()
    ensures { ChecksAreFewer }
{}

/// Both schemes make the same target of a shipped hash set, whatever its count of buckets: each of its loads feeds the
/// instruction after it.
#[tactic(auto, using(crate::proofs::Sets::sets_are_same))]
pub fn sets_are_same()
    ensures { SetsAreSame }
{}
