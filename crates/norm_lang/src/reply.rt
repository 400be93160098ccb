//! What the call of an operation gets.

/// How an operation ended: on the source machine, and for a caller over recycled nodes.
#[derive(Clone, Copy, PartialEq, Eq)]
pub enum SourceReply {
    /// A number was returned.
    Number(u64),
    /// It returned, and no number.
    Nothing,
    /// It was given up at a `new`: there was no node left.
    Full,
    /// It was given up at a `new`: this phase was the last one.
    Phases(u64),
}
