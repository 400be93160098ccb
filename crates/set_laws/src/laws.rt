//! What holds of the histories of the sets' runs.

ghost use Rattle.set_laws.specs.Sets.{SetAnswers, SetDeedsStand};
ghost use Rattle.set_laws.specs.Rows.{RowsWorked};

/// In every run of a set's text, with any number of buckets from one on, whichever of its callers move and begin again,
/// the deeds of the calls, in the order of their moments, are those of a set: each call that ended with a number has one,
/// at an access of its last generator run or of the list after it, a call that runs has at most one, and one that gave up
/// has none.
pub fn source_sets_answer()
    ensures { SetAnswers }
{}

/// In every run of a set's text: if a call runs that has a deed, and the run goes on, the call runs on with this deed, or it has ended with it: at
/// the same moment, and with the reply that was told.
pub fn set_deeds_stand()
    ensures { SetDeedsStand }
{}

/// Histories worked out by hand, and small ones that aren't those of a set.
#[tactic(auto, using(crate::proofs::Worked::rows_worked))]
pub fn rows_are_worked()
    ensures { RowsWorked }
{}
