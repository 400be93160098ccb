//! Laws of every run of a barred target of a proper text.

ghost use Rattle.std.specs.Prelude.{◌≡◌};
ghost use Rattle.caller_parts.specs.Settings.{Fits};
ghost use Rattle.caller_parts.specs.declared.setting.Reclamation.TheVariants.{Optimistic};
ghost use Rattle.oa_simulation.specs.Relation.{QuietIsKept, RunsAreSimulated};

use barrier_check::Barred;
use caller_steps::Setting;

/// For a proper text, under optimistic access: the start state is in the relation with the source machine's start; from each reachable
/// state in the relation every quiet step of every caller leads to one in it, be it the load at a method's begin, a check that passes or
/// fails, a guard, a clear, a step of a claim, of its sweeps or of a retirement, or a store of 0 of a `new` but the last; no step of a
/// sweep makes a slot ready that a validated guard names; and a step by which a method begins, or begins again after a failed check, leaves
/// its caller unwarned.
pub fn quiet_steps_keep(barred: &Barred, setting: &Setting)
    requires fits { Fits barred.now.target setting.now }
    requires optimistic { setting.now.reclamation ≡ Optimistic }
    ensures { QuietIsKept barred.now.target barred.now.source setting.now }
{
    barred.kept();
    setting.kept();
}

/// For a proper text, under optimistic access: whatever the callers do and however their steps interleave, the events that the steps give
/// to the source, in their order, are a run of the source machine, on memory that is never recycled. Each caller's replies are the
/// source's, or all of them but the last, which the source has given already to the call that runs; each exchange of the text that a
/// caller makes next succeeds exactly if the source's does; and the state is in the relation with the source's.
pub fn refines(barred: &Barred, setting: &Setting)
    requires fits { Fits barred.now.target setting.now }
    requires optimistic { setting.now.reclamation ≡ Optimistic }
    ensures { RunsAreSimulated barred.now.target barred.now.source setting.now }
{
    barred.kept();
    setting.kept();
}
