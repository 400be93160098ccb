//! The parts of a replay: the turns of its schedule, and each caller's way to its end.

ghost use Rattle.std.specs.Prelude.{◌≡◌, ◌<◌, ◌^◌, slice_get};
ghost use Rattle.core_runs.specs.Replays.{entry_wants_kind, calls_ended_of, turns_made, callers_ended};
ghost use Rattle.replay_logs.specs.UnderWay.{replay_by, cores_of, IsUnderWay, Follows};
ghost use Rattle.replay_logs.specs.Parts.{caller_of, steps_rest, upto_rest, rest_if, part_of, part_rest, part_made};

use crate::error::LogError;
use crate::progress::{Progress, Terms};
use replay_steps::counting::left_after;
use replay_steps::looking::{ended_calls, wants_kind};
use schedule_turns::{StepKind, Turn};
use std::alloc::Global;

/// What is left of a part of a replay, for one caller.
#[derive(Clone, Copy)]
pub(crate) enum Part {
    /// So many steps.
    Steps {
        caller: u32,
        count: u32,
    },
    /// Steps up to the access that is, from here on, this one of its kind; that one isn't made.
    Upto {
        caller: u32,
        kind: StepKind,
        count: u32,
    },
    /// Steps until so many of its calls have ended.
    Ops {
        caller: u32,
        goal: u64,
    },
    /// All the steps that it has.
    End {
        caller: u32,
    },
}

fn caller_of(part: Part) -> u32
    ensures { result ≡ caller_of part }
{
    match part {
        Part::Steps { caller, .. } => caller,
        Part::Upto { caller, .. } => caller,
        Part::Ops { caller, .. } => caller,
        Part::End { caller } => caller,
    }
}

/// What is left of so many steps after one more.
fn steps_rest(caller: u32, count: u32) -> Option<Part>
    ensures { result ≡ steps_rest caller count }
{
    if count == 0 {
        return None;
    }
    let count = count - 1;
    Some(Part::Steps { caller, count })
}

/// The part goes on as it is, or is over.
fn rest_if(further: bool, part: Part) -> Option<Part>
    ensures { result ≡ rest_if further part }
{
    if further { Some(part) } else { None }
}

/// What is left of steps up to an access.
fn upto_rest(caller: u32, kind: StepKind, left: Option<u32>) -> Option<Part>
    ensures { result ≡ upto_rest caller kind left }
{
    match left {
        None => None,
        Some(count) => Some(Part::Upto {
            caller,
            kind,
            count,
        }),
    }
}

impl<'a> Terms<'a> {
    /// Whether a caller's next access is of this kind.
    fn wants_kind(&self, now: &Progress, caller: u32, kind: StepKind) -> bool
        requires { IsUnderWay self.now now.now }
        ensures { result ≡ entry_wants_kind self.now.pair.target kind (slice_get (cores_of now.now) caller) }
    {
        wants_kind(&now.entries, self.prepared, self.setting, caller, kind)
    }

    /// How many of a caller's calls have ended.
    fn ended_calls(&self, now: &Progress, caller: u32) -> u64
        ensures count { result ≡ calls_ended_of (slice_get (cores_of now.now) caller) }
        ensures few { result < 2 ^ 62 }
    {
        ended_calls(&now.entries, caller)
    }

    /// A turn, as it begins.
    fn part_of(&self, now: &Progress, turn: Turn) -> Part
        ensures { result ≡ part_of turn (cores_of now.now) }
    {
        match turn {
            Turn::Step { caller, count } => Part::Steps { caller, count },
            Turn::Upto {
                caller,
                kind,
                count,
            } => Part::Upto {
                caller,
                kind,
                count,
            },
            Turn::Ops { caller, count } => {
                let goal = self.ended_calls(now, caller) + count as u64;
                Part::Ops { caller, goal }
            }
        }
    }

    /// What is left of a part after a further step; nothing if it is over.
    #[inline(always)]
    fn rest_of(&self, now: &Progress, part: Part) -> Option<Part>
        requires { IsUnderWay self.now now.now }
        ensures { result ≡ part_rest (replay_by self.now) part (cores_of now.now) }
    {
        match part {
            Part::Steps { caller, count } => steps_rest(caller, count),
            Part::Upto {
                caller,
                kind,
                count,
            } => upto_rest(
                caller,
                kind,
                left_after(self.wants_kind(now, caller, kind), count),
            ),
            Part::Ops { caller, goal } => rest_if(self.ended_calls(now, caller) < goal, part),
            Part::End { caller } => rest_if(self.has_next(now, caller), part),
        }
    }

    /// The steps of a part.
    #[inline(always)]
    pub(crate) fn make_part(
        &self,
        alloc: Global,
        now: &mut Progress,
        part: Part,
    ) -> Result<(), LogError>
        requires under_way { IsUnderWay self.now now.old }
        ensures followed { Follows self.now now.old result now.new (part_made (replay_by self.now) part) }
    {
        let mut left = part;
        'steps: while let Some(rest) = self.rest_of(now, left) {
            self.step_of(alloc, now, caller_of(left))?;
            left = rest;
        }
        Ok(())
    }

    /// The turns in order.
    pub(crate) fn make_turns(
        &self,
        alloc: Global,
        now: &mut Progress,
        schedule: &[Turn],
    ) -> Result<(), LogError>
        requires under_way { IsUnderWay self.now now.old }
        ensures followed { Follows self.now now.old result now.new (turns_made (replay_by self.now) schedule.now) }
    {
        for turn in schedule {
            let part = self.part_of(now, *turn);
            self.make_part(alloc, now, part)?;
        }
        Ok(())
    }

    /// Each caller to its end, in the order of their numbers.
    pub(crate) fn end_callers(&self, alloc: Global, now: &mut Progress) -> Result<(), LogError>
        requires under_way { IsUnderWay self.now now.old }
        ensures followed { Follows self.now now.old result now.new (callers_ended (replay_by self.now) 0 self.now.setting.sizes.callers) }
    {
        let callers = self.setting.shape().callers();
        for caller in 0..callers {
            self.make_part(alloc, now, Part::End { caller })?;
        }
        Ok(())
    }
}
