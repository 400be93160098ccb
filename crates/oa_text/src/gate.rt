//! Where callers may be held.

/// A gate that each caller passes before each of its calls, so that a test can hold one of them for a while.
pub trait Gate {
    /// The caller with this number is about to begin its call with this index. The call returns, answers nothing
    /// and is handed no word of shared memory, so it can change nothing but how the callers' steps interleave. It
    /// has no clause: there is nothing that a caller could know of it.
    fn pass(&self, caller: u32, index: u32);
}

/// A gate that holds nobody.
#[derive(Clone, Copy)]
pub struct OpenGate;

impl Gate for OpenGate {
    fn pass(&self, _caller: u32, _index: u32) {}
}
