//! Runs of the shipped texts on memory that is never recycled have legal histories.

ghost use Rattle.legal_histories.specs.Told.{SetRunsAreLegal, QueueRunsAreLegal};

/// Whatever callers of a set's text do and however their accesses interleave, what they are told of their calls has a legal order
/// (linearizability: Herlihy and Wing, TOPLAS 1990).
pub fn set_runs_are_legal()
    ensures { SetRunsAreLegal }
{
    set_laws::laws::source_sets_answer();
}

/// The same of the queue's text.
pub fn queue_runs_are_legal()
    ensures { QueueRunsAreLegal }
{
    queue_laws::laws::source_queues_answer();
}
