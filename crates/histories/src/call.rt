//! The calls of a history.

/// What a caller asked for.
#[derive(Clone, Copy)]
pub enum Action {
    /// A key is put into the set.
    Insert(u64),
    /// A key is taken out of it.
    Remove(u64),
    /// Whether a key is in it.
    Contains(u64),
    /// A value is put into the queue, after all others.
    Enqueue(u64),
    /// The first value is taken out of it.
    Dequeue,
}

/// What it was told.
#[derive(Clone, Copy)]
pub enum Answer {
    /// A number: the value of a queue's call; of a set's, 1 for yes and 0 for no.
    Number(u64),
    /// That no value was there.
    Nothing,
    /// That its steps ran out: the call may have had its effect or not.
    Spent,
    /// Why the call has had no effect: the row was full, the phases were over, or it was never begun.
    NoEffect,
}

/// A call and its answer.
#[derive(Clone, Copy)]
pub struct Call {
    pub caller: u32,
    pub action: Action,
    pub answer: Answer,
}
