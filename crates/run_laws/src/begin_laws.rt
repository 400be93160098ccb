//! Which calls a run of the core begins in the source: laws over every run, for texts that are proper or not.

ghost use Rattle.core_runs.specs.Machine.{OfAll};
ghost use Rattle.run_laws.specs.begin_laws.Begins.{CallsBegin, ScriptsBegin};

/// In the image of a run the calls that a caller begins are those that got a reply, and the one that runs if a step was made
/// for it, in the order in which they were taken.
pub fn calls_begin()
    ensures { OfAll CallsBegin }
{}

/// In the image of a complete run of scripts each caller begins the calls of its script, in order: all of them, or those that got
/// a reply and the one that is spent.
pub fn scripts_begin()
    ensures { OfAll ScriptsBegin }
{}
