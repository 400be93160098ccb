//! Verdicts.

/// What is found of a run.
#[derive(Clone, Copy, Debug, PartialEq, Eq)]
pub enum Verdict {
    /// The events are a run that begins the scripts' calls in order, and it agrees with the replies.
    Accepted,
    /// 1 an event isn't enabled, at its place from 0; 2 an event begins another call than the next of its caller's script, at its
    /// place from 0; 3 no event shows 1 or 2, and the replies of a caller don't agree, with the first such caller. The first event
    /// that shows 2 or 1 decides, 2 before 1.
    Rejected { number: u8, at: u64 },
}
