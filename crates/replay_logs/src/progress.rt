//! A replay under way, and one step of it, written down.

ghost use Rattle.std.specs.Prelude.{◌≡◌, ◌<◌, ◌+◌, true, OnOk, length, slice_get};
ghost use Rattle.source_machine.specs.Calls.{IsOfSourceRun};
ghost use Rattle.caller_parts.specs.Calls.{AreCalls};
ghost use Rattle.core_runs.specs.Scripts.{script_of};
ghost use Rattle.core_runs.specs.Replays.{one_step};
ghost use Rattle.core_entries.specs.Callers.{BelongsTo};
ghost use Rattle.core_entries.specs.Steps.{WordsSound, StepIs};
ghost use Rattle.replay_logs.specs.UnderWay.{replay_by, log_after, begun, has_next, has_next_in, MovesAt, CanMove, CanMoveAt, Moves, IsUnderWay, Follows};

use crate::error::LogError;
use caller_steps::{Call, Program, Setting};
use core_entries::Entry;
use core_ground::{PlainWords, Prepared, Runs};
use norm_check::Normal;
use norm_lang::list::Listed;
use replay_steps::counting::{is_at_limit, one_more};
use replay_steps::looking::{call_at, script_at};
use run_logs::Log;
use run_logs::steps::step_written;
use std::alloc::{AllocError, Global};
use std::marker::Model;

/// What is replayed: the calls of each caller, `fuel` steps at most for each call, and `limit` steps at most in all. The program of
/// the target is made once for all steps.
#[derive(Drop)]
pub(crate) struct Terms<'a> {
    pub(crate) prepared: &'a Prepared<'a>,
    pub(crate) program: Program<'a>,
    pub(crate) normal: &'a Normal,
    pub(crate) setting: &'a Setting,
    pub(crate) scripts: &'a [Listed<Call>],
    pub(crate) fuel: u64,
    pub(crate) limit: u64,
}

impl<'a> Model for Terms<'a> {
    ghost use Rattle.std.specs.Prelude.{◌≡◌};
    ghost use Rattle.replay_logs.specs.UnderWay.{Terms as Told};

    ghost Value = { Told };

    ghost view = { λ t. record { pair = t.prepared.now; text = t.normal.now; setting = t.setting.now; scripts = t.scripts.now; fuel = t.fuel; limit = t.limit } };

    ghost invariant = { λ t. t.program ≡ t.prepared.now.target };
}

/// How far a replay has come: the words, the entries, what was written down, and how many steps were made.
#[derive(Drop)]
pub(crate) struct Progress {
    pub(crate) words: PlainWords,
    pub(crate) entries: Vec<Entry>,
    pub(crate) log: Log,
    pub(crate) steps: u64,
}

impl Model for Progress {
    ghost use Rattle.replay_logs.specs.UnderWay.{Progress as Now};

    ghost Value = { Now };

    ghost view = { λ p. record { words = p.words; entries = p.entries.items; log = p.log; steps = p.steps } };
}

/// Whether a caller has a step to take: it runs a call that isn't spent, or its script has a further one.
#[inline(always)]
fn has_next(fuel: u64, scripts: &[Listed<Call>], caller: u32, entry: &Entry) -> bool
    ensures { result ≡ has_next fuel (script_of scripts.now caller) entry.now.core }
{
    if entry.is_idle() {
        let script = script_at(scripts, caller as usize);
        return call_at(script, entry.replies().len()).is_some();
    }
    !entry.is_spent(fuel)
}

impl<'a> Terms<'a> {
    /// Whether a caller has a step to take. One that doesn't exist has none.
    #[inline(always)]
    pub(crate) fn has_next(&self, now: &Progress, caller: u32) -> bool
        ensures { result ≡ has_next_in self.now caller now.now }
    {
        match now.entries.get(caller as usize) {
            None => false,
            Some(entry) => has_next(self.fuel, self.scripts, caller, entry),
        }
    }

    /// An idle entry takes the next call of its script.
    fn begin_entry(&self, entry: &mut Entry, script: &[Call])
        requires belongs { BelongsTo self.now.pair self.now.setting entry.old.core }
        requires room { entry.old.room ≡ length script.now }
        requires calls { AreCalls self.now.pair.target script.now }
        ensures begun { entry.new ≡ begun self.now.setting.reclamation script.now entry.old }
        ensures belongs { BelongsTo self.now.pair self.now.setting entry.new.core }
    {
        if entry.is_idle() {
            if let Some(call) = call_at(script, entry.replies().len()) {
                let by = self.setting.reclamation();
                let runs = Runs::Barred(self.prepared.barred());
                entry.begin_by(by, runs, call.op, call.args);
            }
        }
    }

    /// Makes a step of an entry, after it took its call, and writes it down.
    #[inline(always)]
    fn move_entry(
        &self,
        alloc: Global,
        entry: &mut Entry,
        words: &mut PlainWords,
        log: &mut Log,
        script: &[Call],
    ) -> Result<(), AllocError>
        requires can { CanMove self.now script.now entry.old }
        requires lawful { WordsSound self.now.pair.target self.now.setting words.old }
        requires source { IsOfSourceRun self.now.text log.old.machine }
        ensures step { StepIs self.now.pair.target self.now.setting words.old words.new (begun self.now.setting.reclamation script.now entry.old) entry.new }
        ensures source { IsOfSourceRun self.now.text log.new.machine }
        ensures written { OnOk result (log.new ≡ log_after self.now words.old (begun self.now.setting.reclamation script.now entry.old).core log.old) }
    {
        self.begin_entry(entry, script);
        let barred = self.prepared.barred();
        step_written(
            alloc,
            self.normal,
            entry,
            words,
            log,
            barred,
            &self.program,
            self.setting,
        )
    }

    /// Makes a step of a caller, in its place among the entries.
    #[inline(always)]
    fn move_caller(
        &self,
        alloc: Global,
        entries: &mut Vec<Entry>,
        words: &mut PlainWords,
        log: &mut Log,
        caller: u32,
    ) -> Result<(), AllocError>
        requires can { CanMoveAt self.now (script_of self.now.scripts caller) (slice_get entries.old.items caller) }
        requires lawful { WordsSound self.now.pair.target self.now.setting words.old }
        requires source { IsOfSourceRun self.now.text log.old.machine }
        ensures moved { OnOk result (MovesAt self.now words.old words.new log.old log.new caller entries.old.items entries.new.items (slice_get entries.old.items caller)) }
        ensures source { IsOfSourceRun self.now.text log.new.machine }
    {
        let script = script_at(self.scripts, caller as usize);
        match entries.get_mut(caller as usize) {
            None => Ok(()),
            Some(entry) => self.move_entry(alloc, entry, words, log, script),
        }
    }

    /// Makes a step of a caller that has one to take, and doesn't count it.
    #[inline(always)]
    fn move_in(&self, alloc: Global, now: &mut Progress, caller: u32) -> Result<(), AllocError>
        requires under_way { IsUnderWay self.now now.old }
        requires next { has_next_in self.now caller now.old ≡ true }
        ensures moved { OnOk result (Moves self.now caller now.old now.new) }
    {
        self.move_caller(
            alloc,
            &mut now.entries,
            &mut now.words,
            &mut now.log,
            caller,
        )
    }

    /// Counts a step.
    fn count(&self, now: &mut Progress)
        requires { now.old.steps < self.now.limit }
        ensures { now.new ≡ record now.old { steps = now.old.steps + 1 } }
    {
        now.steps = one_more(self.limit, now.steps);
    }

    /// One step of a caller. That it has none to take is told before that the limit is reached.
    ///
    /// # Errors
    /// The caller has no step to take, the limit is reached, or memory ran out.
    #[inline(always)]
    pub(crate) fn step_of(
        &self,
        alloc: Global,
        now: &mut Progress,
        caller: u32,
    ) -> Result<(), LogError>
        requires under_way { IsUnderWay self.now now.old }
        ensures followed { Follows self.now now.old result now.new (one_step (replay_by self.now) caller) }
        ensures counted { OnOk result (now.new.steps ≡ now.old.steps + 1) }
        ensures below { OnOk result (now.old.steps < self.now.limit) }
    {
        if !self.has_next(now, caller) {
            return Err(LogError::StepOfNobody { steps: now.steps });
        }
        if is_at_limit(self.limit, now.steps) {
            return Err(LogError::LongReplay { steps: now.steps });
        }
        self.move_in(alloc, now, caller)?;
        self.count(now);
        Ok(())
    }
}
