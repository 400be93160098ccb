//! One access to one word, and how routines end.

/// An access to the word at an address.
#[derive(Clone, Copy, PartialEq, Eq)]
pub enum Access {
    /// Finds the word.
    Load {
        /// The word's address.
        at: u32,
    },
    /// Leaves this word there.
    Store {
        /// The word's address.
        at: u32,
        /// What is stored.
        word: u64,
    },
    /// Finds the word, and leaves the replacement there if the word is the expected one.
    CompareExchange {
        /// The word's address.
        at: u32,
        /// What has to stand there.
        expected: u64,
        /// What stands there after a success.
        replacement: u64,
    },
    /// Finds the word, and leaves the greater of it and this one there.
    FetchMax {
        /// The word's address.
        at: u32,
        /// The least that stands there afterwards.
        word: u64,
    },
}

/// How a claim ended.
#[derive(Clone, Copy, PartialEq, Eq)]
pub enum ClaimEnd {
    /// The slot is the caller's.
    Claimed(u32),
    /// The look after the second sweep found no slot.
    Full,
    /// A sweep found this phase, which is the last one.
    PhasesOver(u64),
}

/// How a sweep ended.
#[derive(Clone, Copy, PartialEq, Eq)]
pub enum SweepEnd {
    /// It has looked at every slot.
    Swept,
    /// It found this phase, which is the last one.
    PhasesOver(u64),
}
