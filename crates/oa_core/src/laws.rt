//! Laws of every run of a barred target, and of replays.

ghost use Rattle.caller_parts.specs.Settings.{Fits};
ghost use Rattle.oa_core.specs.States.{RunsInRow};
ghost use Rattle.oa_core.specs.Stops.{LongerStopsAlike};

use barrier_check::Barred;
use caller_steps::Setting;

/// Whatever the callers do, every reference in a register, a field or a root and every hazard names a slot of the row,
/// every wanted address is below the count of words and finds a lawful word, the phase and the warnings are phases of the
/// run, and every status has a kind and a phase that isn't past the last.
#[tactic(auto, using(crate::proofs::Ending::runs_in_row))]
pub fn runs_in_row(barred: &Barred, setting: &Setting)
    requires fits { Fits barred.now.target setting.now }
    ensures { RunsInRow barred.now.target setting.now }
{
    barred.kept();
    setting.kept();
}

/// If a turn needs a step of nobody, a replay under a longer limit stops at the same turn: so what `whole_turns` answers holds of
/// shorter ones too.
pub fn longer_stops_alike()
    ensures { LongerStopsAlike }
{}
