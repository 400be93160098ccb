//! Calls of operations, and what they get.

/// How a call ended, as in the source. A claim that found no slot gave it up with `Full`, and a sweep that found the last phase
/// with `Phases`.
pub use norm_lang::SourceReply as Reply;

/// A call of an operation by its number; the arguments past the operation's count are 0.
#[derive(Clone, Copy)]
pub struct Call {
    /// The operation.
    pub op: u8,
    /// Its arguments, from n0 on.
    pub args: [u64; 4],
}

/// A call, and how many steps were made for it; the count stays at 2^64 - 1.
#[derive(Clone, Copy)]
pub struct Running {
    /// The call.
    pub call: Call,
    /// The steps, each of which is one access.
    pub steps: u64,
}

/// A reply with the call that got it, and the count of steps that were made for it.
#[derive(Clone, Copy)]
pub struct Replied {
    /// The call.
    pub call: Call,
    /// How it ended.
    pub reply: Reply,
    /// The steps, the last access included.
    pub steps: u64,
}
