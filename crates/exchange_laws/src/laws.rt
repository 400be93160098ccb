//! That the lines of exchanges and retirements make their accesses.

ghost use Rattle.exchange_laws.specs.Exchanging.{ExchangesAreMade, RetirementsAreMade};
ghost use Rattle.exchange_laws.specs.Lists.{ListsAreMade};

/// A caller that runs the block of an auxiliary exchange makes its access, and goes on as the entry does: where the exchange jumps if it failed, else
/// at the next instruction or at the retirement. An exchange whose object is null is a load, and fails.
pub fn exchanges_are_made()
    ensures { ExchangesAreMade }
{}

/// The lines of a retirement load the phase, and store the status of a slot that is retired in it.
pub fn retirements_are_made()
    ensures { RetirementsAreMade }
{}

/// The lines of a commit make its exchanges, one after another: the node of each that succeeds is in no cradle any more, and what it retires is retired.
/// The first that fails, or the end, leads to the wrap-up with the count of those that succeeded.
pub fn lists_are_made()
    ensures { ListsAreMade }
{}
