//! The turns of a schedule, and each caller to its end.

ghost use Rattle.std.specs.Prelude.{◌≡◌, ◌<◌, ◌+◌, ◌^◌};
ghost use Rattle.core_runs.specs.Replays.{wants_kind, most_steps, steps_made, upto_made, ended_calls, ops_made, turn_made, turns_made, caller_ended, callers_ended};
ghost use Rattle.oa_core.specs.Shown.{replay_by, shown, bared, told, IsUnderWay};

use crate::progress::{Progress, Stop, Terms};
use replay_steps::counting::left_after;
use replay_steps::looking::{ended_calls, wants_kind};
use schedule_turns::{StepKind, Turn};

impl<'a> Terms<'a> {
    /// Whether a caller's next access is of this kind.
    fn wants_kind(&self, now: &Progress, caller: u32, kind: StepKind) -> bool
        requires { IsUnderWay self.now now.now }
        ensures { result ≡ wants_kind (replay_by self.now) caller kind (shown now.now) }
    {
        wants_kind(&now.entries, self.prepared, self.setting, caller, kind)
    }

    /// How many of a caller's calls have ended.
    fn ended_calls(&self, now: &Progress, caller: u32) -> u64
        ensures count { result ≡ ended_calls caller (shown now.now) }
        ensures few { result < 2 ^ 62 }
    {
        ended_calls(&now.entries, caller)
    }

    /// How many of a caller's calls have ended once so many more have.
    fn goal_of(&self, now: &Progress, caller: u32, count: u32) -> u64
        ensures { result ≡ ended_calls caller (shown now.now) + count }
    {
        self.ended_calls(now, caller) + count as u64
    }

    /// So many steps of a caller.
    #[tactic(auto, using(crate::proofs::Looping::steps_more, crate::proofs::Looping::steps_stop, crate::proofs::Looping::steps_end))]
    fn make_steps(&self, now: &mut Progress, caller: u32, count: u32) -> Result<(), Stop>
        requires under_way { IsUnderWay self.now now.old }
        ensures made { told result now.new ≡ bared (steps_made (replay_by self.now) caller count (shown now.old)) }
        ensures under_way { IsUnderWay self.now now.new }
    {
        for _ in 0..count {
            self.step_of(now, caller)?;
        }
        Ok(())
    }

    /// Steps of a caller up to the access that is, from here on, this one of its kind; that one isn't made.
    #[tactic(auto, using(crate::proofs::Looping::upto_more, crate::proofs::Looping::upto_stop, crate::proofs::Looping::upto_end))]
    fn make_upto(
        &self,
        now: &mut Progress,
        caller: u32,
        kind: StepKind,
        count: u32,
    ) -> Result<(), Stop>
        requires under_way { IsUnderWay self.now now.old }
        ensures made { told result now.new ≡ bared (upto_made (replay_by self.now) caller kind (most_steps (replay_by self.now) (shown now.old)) count (shown now.old)) }
        ensures under_way { IsUnderWay self.now now.new }
    {
        let mut left = count;
        'steps: while let Some(rest) = left_after(self.wants_kind(now, caller, kind), left) {
            self.step_of(now, caller)?;
            left = rest;
        }
        Ok(())
    }

    /// Steps of a caller until so many more of its calls have ended.
    fn make_ops(&self, now: &mut Progress, caller: u32, count: u32) -> Result<(), Stop>
        requires under_way { IsUnderWay self.now now.old }
        ensures made { told result now.new ≡ bared (ops_made (replay_by self.now) caller (most_steps (replay_by self.now) (shown now.old)) (ended_calls caller (shown now.old) + count) (shown now.old)) }
        ensures under_way { IsUnderWay self.now now.new }
    {
        let goal = self.goal_of(now, caller, count);
        'calls: while self.ended_calls(now, caller) < goal {
            self.call_of(now, caller)?;
        }
        Ok(())
    }

    pub(crate) fn make_turn(&self, now: &mut Progress, turn: Turn) -> Result<(), Stop>
        requires under_way { IsUnderWay self.now now.old }
        ensures made { told result now.new ≡ bared (turn_made (replay_by self.now) turn (shown now.old)) }
        ensures under_way { IsUnderWay self.now now.new }
    {
        match turn {
            Turn::Step { caller, count } => self.make_steps(now, caller, count),
            Turn::Upto {
                caller,
                kind,
                count,
            } => self.make_upto(now, caller, kind, count),
            Turn::Ops { caller, count } => self.make_ops(now, caller, count),
        }
    }

    /// The turns in order.
    #[tactic(auto, using(crate::proofs::Looping::turns_more, crate::proofs::Looping::turns_stop))]
    pub(crate) fn make_turns(&self, now: &mut Progress, schedule: &[Turn]) -> Result<(), Stop>
        requires under_way { IsUnderWay self.now now.old }
        ensures made { told result now.new ≡ bared (turns_made (replay_by self.now) schedule.now (shown now.old)) }
        ensures under_way { IsUnderWay self.now now.new }
    {
        for turn in schedule {
            self.make_turn(now, *turn)?;
        }
        Ok(())
    }

    /// All the steps that a caller has.
    #[inline(never)]
    fn end_caller(&self, now: &mut Progress, caller: u32) -> Result<(), Stop>
        requires under_way { IsUnderWay self.now now.old }
        ensures made { told result now.new ≡ bared (caller_ended (replay_by self.now) caller (most_steps (replay_by self.now) (shown now.old)) (shown now.old)) }
        ensures under_way { IsUnderWay self.now now.new }
    {
        'calls: while let Some(next) = self.next_of(now, caller) {
            self.make_call(now, caller, next)?;
        }
        Ok(())
    }

    /// Each caller to its end, in the order of their numbers.
    #[tactic(auto, using(crate::proofs::Looping::callers_more, crate::proofs::Looping::callers_stop, crate::proofs::Looping::callers_end))]
    pub(crate) fn end_callers(&self, now: &mut Progress) -> Result<(), Stop>
        requires under_way { IsUnderWay self.now now.old }
        ensures made { told result now.new ≡ bared (callers_ended (replay_by self.now) 0 self.now.setting.sizes.callers (shown now.old)) }
        ensures under_way { IsUnderWay self.now now.new }
    {
        let callers = self.setting.shape().callers();
        for caller in 0..callers {
            self.end_caller(now, caller)?;
        }
        Ok(())
    }
}
