//! A replay under way, and one step of it.

ghost use Rattle.std.specs.Prelude.{◌≡◌, ◌<◌, ◌+◌, Some, OnOk, length, option_map, slice_get};
ghost use Rattle.core_runs.specs.Machine.{core_run};
ghost use Rattle.core_runs.specs.Scripts.{script_of};
ghost use Rattle.core_runs.specs.Replays.{one_step};
ghost use Rattle.core_entries.specs.Callers.{BelongsTo};
ghost use Rattle.core_entries.specs.Steps.{WordsSound, StepIs};
ghost use Rattle.replay_steps.specs.Entries.{AllBelongTo};
ghost use Rattle.oa_core.specs.Shown.{replay_by, shown, bared, told, next_of, next_in, events_of, begun, CanMove, CanMoveAt, MovesAt, IsUnderWay};

use crate::replaying::CallList;
use caller_steps::{Call, Program, Setting};
use core_entries::Entry;
use core_entries::step::step_on;
use core_ground::{PlainWords, Prepared, Runs};
use replay_steps::counting::{is_at_limit, one_more};
use replay_steps::looking::{call_at, script_at};
use std::marker::Model;

/// What a caller does next.
#[derive(Clone, Copy)]
pub(crate) enum Move {
    /// It takes a call, and makes a step.
    Takes(Call),
    /// It makes a step.
    GoesOn,
}

/// Why a replay stops, with the steps made before.
#[derive(Clone, Copy)]
pub enum Stop {
    /// A step is needed of a caller that has none to take, or that doesn't exist.
    StepOfNobody { steps: u64 },
    /// The limit of steps is reached, and another is wanted.
    LongReplay { steps: u64 },
}

/// What is replayed: `fuel` steps at most for each call, and `limit` steps at most in all. The program of the target is made once
/// for all steps.
#[derive(Drop)]
pub(crate) struct Terms<'a> {
    pub(crate) prepared: &'a Prepared<'a>,
    pub(crate) program: Program<'a>,
    pub(crate) setting: &'a Setting,
    pub(crate) scripts: &'a [CallList],
    pub(crate) fuel: u64,
    pub(crate) limit: u64,
}

impl<'a> Model for Terms<'a> {
    ghost use Rattle.std.specs.Prelude.{◌≡◌};
    ghost use Rattle.oa_core.specs.Shown.{Terms as Told};

    ghost Value = { Told };

    ghost view = { λ t. record { pair = t.prepared.now; setting = t.setting.now; scripts = t.scripts.now; fuel = t.fuel; limit = t.limit } };

    ghost invariant = { λ t. t.program ≡ t.prepared.now.target };
}

/// How far a replay has come: the words, the entries, and how many steps were made.
#[derive(Drop)]
pub(crate) struct Progress {
    pub(crate) words: PlainWords,
    pub(crate) entries: Vec<Entry>,
    pub(crate) steps: u64,
}

impl Model for Progress {
    ghost use Rattle.oa_core.specs.Shown.{Progress as Now};

    ghost Value = { Now };

    ghost view = { λ p. record { words = p.words; entries = p.entries.items; steps = p.steps } };
}

fn next_call(entry: &Entry, script: &[Call]) -> Option<Move>
    ensures { result ≡ option_map Move.Takes (slice_get script.now (length entry.now.core.replies)) }
{
    call_at(script, entry.replies().len()).map(Move::Takes)
}

/// What a caller does next, by its script; nothing if it has no step to take.
#[inline(always)]
fn next_of(fuel: u64, scripts: &[CallList], caller: u32, entry: &Entry) -> Option<Move>
    ensures { result ≡ next_of fuel (script_of scripts.now caller) entry.now.core }
{
    if entry.is_idle() {
        return next_call(entry, script_at(scripts, caller as usize));
    }
    if entry.is_spent(fuel) {
        return None;
    }
    Some(Move::GoesOn)
}

impl<'a> Terms<'a> {
    /// What a caller does next; nothing if it has no step to take, or doesn't exist.
    #[inline(always)]
    pub(crate) fn next_of(&self, now: &Progress, caller: u32) -> Option<Move>
        ensures { result ≡ next_in self.now caller now.now }
    {
        match now.entries.get(caller as usize) {
            None => None,
            Some(entry) => next_of(self.fuel, self.scripts, caller, entry),
        }
    }

    /// The entry takes its call, if it takes one.
    pub(crate) fn begin_entry(&self, entry: &mut Entry, next: Move)
        requires belongs { BelongsTo self.now.pair self.now.setting entry.old.core }
        requires can { CanMove self.now.pair.target next entry.old }
        ensures begun { entry.new ≡ begun self.now.setting.reclamation next entry.old }
        ensures belongs { BelongsTo self.now.pair self.now.setting entry.new.core }
    {
        if let Move::Takes(call) = next {
            let by = self.setting.reclamation();
            let runs = Runs::Barred(self.prepared.barred());
            entry.begin_by(by, runs, call.op, call.args);
        }
    }

    /// Makes a step of an entry, after it took its call.
    #[inline(always)]
    fn move_entry(&self, entry: &mut Entry, words: &mut PlainWords, next: Move)
        requires belongs { BelongsTo self.now.pair self.now.setting entry.old.core }
        requires can { CanMove self.now.pair.target next entry.old }
        requires lawful { WordsSound self.now.pair.target self.now.setting words.old }
        ensures step { StepIs self.now.pair.target self.now.setting words.old words.new (begun self.now.setting.reclamation next entry.old) entry.new }
        ensures belongs { BelongsTo self.now.pair self.now.setting entry.new.core }
        ensures lawful { WordsSound self.now.pair.target self.now.setting words.new }
    {
        self.begin_entry(entry, next);
        step_on(
            entry,
            words,
            self.prepared.barred(),
            &self.program,
            self.setting,
        );
    }

    /// Makes a step of a caller, in its place among the entries.
    #[inline(always)]
    fn move_caller(&self, entries: &mut Vec<Entry>, words: &mut PlainWords, caller: u32, next: Move)
        requires belong { AllBelongTo self.now.pair self.now.setting entries.old.items }
        requires can { CanMoveAt self.now.pair.target next (slice_get entries.old.items caller) }
        requires lawful { WordsSound self.now.pair.target self.now.setting words.old }
        ensures moved { MovesAt self.now.pair.target self.now.setting words.old words.new next caller entries.old.items entries.new.items (slice_get entries.old.items caller) }
        ensures belong { AllBelongTo self.now.pair self.now.setting entries.new.items }
        ensures lawful { WordsSound self.now.pair.target self.now.setting words.new }
    {
        match entries.get_mut(caller as usize) {
            None => {}
            Some(entry) => self.move_entry(entry, words, next),
        }
    }

    /// Makes a step of a caller, and doesn't count it.
    #[inline(always)]
    fn move_in(&self, now: &mut Progress, caller: u32, next: Move)
        requires under_way { IsUnderWay self.now now.old }
        requires next { next_in self.now caller now.old ≡ Some next }
        ensures runs { core_run self.now.pair.target self.now.setting (events_of caller next) (shown now.old).state ≡ Some (shown now.new).state }
        ensures uncounted { now.new.steps ≡ now.old.steps }
        ensures under_way { IsUnderWay self.now now.new }
    {
        self.move_caller(&mut now.entries, &mut now.words, caller, next);
    }

    /// Makes a step of a caller, and counts it.
    #[inline(always)]
    fn move_on(&self, now: &mut Progress, caller: u32, next: Move)
        requires under_way { IsUnderWay self.now now.old }
        requires next { next_in self.now caller now.old ≡ Some next }
        requires below { now.old.steps < self.now.limit }
        ensures runs { core_run self.now.pair.target self.now.setting (events_of caller next) (shown now.old).state ≡ Some (shown now.new).state }
        ensures counted { now.new.steps ≡ now.old.steps + 1 }
        ensures under_way { IsUnderWay self.now now.new }
    {
        self.move_in(now, caller, next);
        now.steps = one_more(self.limit, now.steps);
    }

    /// The step that a caller has next.
    ///
    /// # Errors
    /// The limit is reached.
    #[inline(always)]
    pub(crate) fn make_step(&self, now: &mut Progress, caller: u32, next: Move) -> Result<(), Stop>
        requires under_way { IsUnderWay self.now now.old }
        requires next { next_in self.now caller now.old ≡ Some next }
        ensures made { told result now.new ≡ bared (one_step (replay_by self.now) caller (shown now.old)) }
        ensures counted { OnOk result (now.new.steps ≡ now.old.steps + 1) }
        ensures below { OnOk result (now.old.steps < self.now.limit) }
        ensures under_way { IsUnderWay self.now now.new }
    {
        if is_at_limit(self.limit, now.steps) {
            return Err(Stop::LongReplay { steps: now.steps });
        }
        self.move_on(now, caller, next);
        Ok(())
    }

    /// One step of a caller. That it has none to take is told before that the limit is reached.
    ///
    /// # Errors
    /// The caller has no step to take, or the limit is reached.
    #[inline(never)]
    pub(crate) fn step_of(&self, now: &mut Progress, caller: u32) -> Result<(), Stop>
        requires under_way { IsUnderWay self.now now.old }
        ensures made { told result now.new ≡ bared (one_step (replay_by self.now) caller (shown now.old)) }
        ensures counted { OnOk result (now.new.steps ≡ now.old.steps + 1) }
        ensures below { OnOk result (now.old.steps < self.now.limit) }
        ensures under_way { IsUnderWay self.now now.new }
    {
        match self.next_of(now, caller) {
            None => Err(Stop::StepOfNobody { steps: now.steps }),
            Some(next) => self.make_step(now, caller, next),
        }
    }
}
