//! The turn at which a replay stops, found by a replay of its own.

ghost use Rattle.std.specs.Prelude.{◌≡◌, IfOk, All, length};
ghost use Rattle.caller_parts.specs.Calls.{AreCalls};
ghost use Rattle.caller_parts.specs.Settings.{Fits};
ghost use Rattle.core_runs.specs.Replays.{replay_start};
ghost use Rattle.replay_steps.specs.Entries.{IsShort};
ghost use Rattle.oa_core.specs.Finals.{replay_of};
ghost use Rattle.oa_core.specs.Shown.{replay_by, shown, IsUnderWay};
ghost use Rattle.oa_core.specs.Stops.{StopsAfter};

use crate::progress::{Progress, Terms};
use crate::replaying::{CallList, ReadyReplay};
use barrier_check::Barred;
use caller_steps::Setting;
use core_ground::Prepared;
use schedule_turns::Turn;
use std::alloc::{AllocError, Global};

impl<'a> Terms<'a> {
    /// How many turns, in order, are made whole before one that isn't.
    pub(crate) fn count_turns(&self, now: &mut Progress, schedule: &[Turn]) -> usize
        requires under_way { IsUnderWay self.now now.old }
        ensures { StopsAfter (replay_by self.now) schedule.now (shown now.old) result }
    {
        for (whole, turn) in schedule.iter().enumerate() {
            match self.make_turn(now, *turn) {
                Ok(()) => {}
                Err(_) => return whole,
            }
        }
        schedule.len()
    }
}

/// On a prepared target.
fn count_prepared<'a>(
    alloc: Global,
    prepared: &'a Prepared<'a>,
    setting: &'a Setting,
    scripts: &'a [CallList],
    fuel: u64,
    schedule: &[Turn],
) -> Result<usize, AllocError>
    requires fits { Fits prepared.now.target setting.now }
    requires count { length scripts.now ≡ setting.now.sizes.callers }
    requires calls { All (AreCalls prepared.now.target) scripts.now }
    requires few { All IsShort scripts.now }
    ensures { IfOk result (λ whole. StopsAfter (replay_of prepared.now.target setting.now scripts.now fuel) schedule.now (replay_start (replay_of prepared.now.target setting.now scripts.now fuel)) whole) }
{
    match ReadyReplay::new(alloc, prepared, setting, scripts, fuel) {
        Ok(ready) => Ok(ready.count_whole(schedule)),
        Err(error) => Err(error),
    }
}

/// How many turns of a schedule `replay` makes whole before the one at which it stops; all of them, if it stops at none.
///
/// # Errors
/// Memory ran out, before the first step.
pub fn whole_turns(
    alloc: Global,
    barred: &Barred,
    setting: &Setting,
    scripts: &[CallList],
    fuel: u64,
    schedule: &[Turn],
) -> Result<usize, AllocError>
    requires fits { Fits barred.now.target setting.now }
    requires count { length scripts.now ≡ setting.now.sizes.callers }
    requires calls { All (AreCalls barred.now.target) scripts.now }
    requires few { All IsShort scripts.now }
    ensures { IfOk result (λ whole. StopsAfter (replay_of barred.now.target setting.now scripts.now fuel) schedule.now (replay_start (replay_of barred.now.target setting.now scripts.now fuel)) whole) }
{
    let prepared = Prepared::new(barred);
    count_prepared(alloc, &prepared, setting, scripts, fuel, schedule)
}
