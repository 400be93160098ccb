//! Instructions as a small machine sees them.

use norm_lang::Fork;

/// An instruction: its successors, by their numbers, and the state after it for each of the four states
/// before it.
#[derive(Clone, Copy)]
pub struct Move {
    pub fork: Fork,
    pub after: [u8; 4],
}
