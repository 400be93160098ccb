//! Laws of runs.

ghost use Rattle.core_runs.specs.Machine.{OfAll, EventsLead};
ghost use Rattle.core_runs.specs.Views.{EventsAreSeen, StartIsSeen};
ghost use Rattle.core_runs.specs.Advances.{RunsEnd};
ghost use Rattle.core_runs.specs.Histories.{KeepsCalls};
ghost use Rattle.core_runs.specs.Replays.{Replay, ReplaysReach};
ghost use Rattle.core_runs.specs.Swept.{RestartsAreCounted};

/// Reachable states are those to which events lead, one after another: what holds at the start and is kept by every event
/// holds of each.
pub fn events_lead()
    ensures { OfAll EventsLead }
{}

/// What an event does to the words by their names and to the callers by their numbers, which signs it gives, and when it is
/// enabled.
pub fn events_are_seen()
    ensures { OfAll EventsAreSeen }
{}

/// At the start each word says what its name does, and each caller is idle.
pub fn start_is_seen()
    ensures { OfAll StartIsSeen }
{}

/// Steps of a call leave it running, or end it with exactly one reply, beside which stand the call and its steps.
pub fn runs_end()
    ensures { OfAll RunsEnd }
{}

/// An entry keeps the calls that its caller took in the run, in order, each with the steps made for it.
pub fn keeps_calls()
    ensures { OfAll KeepsCalls }
{}

/// The events of a replay are a complete run of its scripts, from the start to its state.
pub fn replays_reach()
    ensures { (p : Replay) → ReplaysReach p }
{}

/// Under epochs a restart is counted exactly if a claim that has swept ends with a slot.
pub fn restarts_are_counted()
    ensures { OfAll RestartsAreCounted }
{}
