//! Laws of every complete run of a barred target.

ghost use Rattle.std.specs.Prelude.{◌≡◌};
ghost use Rattle.caller_parts.specs.Settings.{Fits};
ghost use Rattle.caller_parts.specs.declared.setting.Reclamation.TheVariants.{Optimistic};
ghost use Rattle.core_runs.specs.Machine.{OfAll};
ghost use Rattle.run_laws.specs.Each.{EachIsOnTheWay};
ghost use Rattle.run_laws.specs.Source.{RunsFollowSource};

use barrier_check::Barred;
use caller_steps::Setting;

/// For a proper text, under optimistic access: a complete run of scripts is one of the text on memory that is never recycled, by all
/// callers at once, however their steps interleave. It begins the calls of the scripts in order; no claim takes a slot that a validated
/// guard names; no value read from a recycled slot passes its check.
pub fn runs_follow_source(barred: &Barred, setting: &Setting)
    requires fits { Fits barred.now.target setting.now }
    requires optimistic { setting.now.reclamation ≡ Optimistic }
    ensures { RunsFollowSource barred.now.target barred.now.source setting.now }
{
    barred.kept();
    setting.kept();
}

/// What is so in each state of a run is so in the last one, and in each of a first part of the run.
pub fn each_is_on_the_way()
    ensures { OfAll EachIsOnTheWay }
{}
