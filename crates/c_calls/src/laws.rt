//! That a caller that runs an operation makes its `new`.

ghost use Rattle.c_calls.specs.News.{NewsAreMade};

/// A caller that has cleared its hazards for a `new` goes on to the zeroes if the cradle has a slot; else it calls a claim, makes its accesses, and keeps
/// the slot in the cradle. If there is none, or the phases are over, the operation ends with that. Each zero is a store of 0 to one field of
/// the node, and the last leads to the next instruction, with the node's reference in the register.
pub fn news_are_made()
    ensures { NewsAreMade }
{}
