//! Rows worked out by hand for properness: runs that break each of its conditions, the names in retired lists, and how many callers it speaks of.
#![tactic(auto)]

ghost use Rattle.proper_rows.specs.BreachRows.{BreachRows};
ghost use Rattle.proper_rows.specs.Conditions.{OneConditionIsFirst, OneAnswer};
ghost use Rattle.proper_rows.specs.Eight.{ProperIsOfEight};
ghost use Rattle.proper_rows.specs.RetiredRows.{RetiredRows};

/// Three texts, and a run of each: one retires a node twice, a root of one leads to a retired node, and a method run of one has got what leads
/// to a node that was retired before the run began. No other condition comes first there.
#[tactic(auto, using(crate::proofs::Breaches::breach_rows))]
pub fn breach_rows()
    ensures { BreachRows }
{}

/// The condition that a breach names is the first that the state breaks, so no state has breaches of two conditions; and all answers
/// `improper` to the same events have the same number and the same place.
#[tactic(auto, using(crate::proofs::Conditions::one_condition_is_first, crate::proofs::Conditions::one_answer))]
pub fn one_answer()
    ensures conditions { OneConditionIsFirst }
    ensures answers { OneAnswer }
{}

/// A text is proper exactly if all its runs by one to eight callers are. Nothing is asked of nine.
pub fn proper_is_of_eight()
    ensures { ProperIsOfEight }
{}

/// The number of a name's first retirement, what is of before so many retirements, and a second retirement.
#[tactic(auto, using(crate::proofs::Retired::retired_rows))]
pub fn retired_rows()
    ensures { RetiredRows }
{}
