//! Rows worked out by hand, which the lines of operations are held against: blocks, where they stand, and calls of a stack that are told their
//! words.
#![tactic(auto)]

ghost use Rattle.emission_rows.specs.BlockRows.{BlockRows, PlaceRows};
ghost use Rattle.emission_rows.specs.CallRows.{PushRows, PopRows, PeekRows, SwingRows};

/// Blocks written out line by line.
pub fn block_rows()
    ensures { BlockRows }
{}

/// Where the parts of an operation begin, and the jumps between them.
pub fn place_rows()
    ensures { PlaceRows }
{}

/// A node is made, from a cradle or by a claim, and published, or the phases are over.
pub fn push_rows()
    ensures { PushRows }
{}

/// A node is guarded, unlinked and retired, or the caller is warned.
pub fn pop_rows()
    ensures { PopRows }
{}

/// A wrap-up that keeps a guard.
pub fn peek_rows()
    ensures { PeekRows }
{}

/// An auxiliary exchange, with null for its object too.
pub fn swing_rows()
    ensures { SwingRows }
{}
