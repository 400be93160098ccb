//! What holds of the histories of the queue's runs.

ghost use Rattle.queue_laws.specs.Queues.{QueueAnswers, QueueDeedsStand};
ghost use Rattle.queue_laws.specs.Rows.{RowsWorked};

/// In every run of the queue's text, whichever of its callers move and begin again, the deeds of the calls, in the order
/// of their moments, are those of a queue: each call that ended with a number or with nothing has one, at an access of its
/// last generator run or of the list after it, a call that runs has at most one, and one that gave up has none.
pub fn source_queues_answer()
    ensures { QueueAnswers }
{}

/// In every run of the queue's text: if a call runs that has a deed, and the run goes on, the call runs on with this deed, or it has ended with it: at
/// the same moment, and with the reply that was told.
pub fn queue_deeds_stand()
    ensures { QueueDeedsStand }
{}

/// Histories worked out by hand, and small ones that aren't those of a queue.
#[tactic(auto, using(crate::proofs::Worked::rows_worked))]
pub fn rows_are_worked()
    ensures { RowsWorked }
{}
