//! The steps of one call in a replay under way, made together.

ghost use Rattle.std.specs.Prelude.{◌≡◌, ◌≤◌, ◌<◌, Some, OnOk, slice_get};
ghost use Rattle.core_entries.specs.Callers.{BelongsTo};
ghost use Rattle.core_entries.specs.Steps.{WordsSound};
ghost use Rattle.replay_steps.specs.Entries.{AllBelongTo};
ghost use Rattle.oa_core.specs.Shown.{next_in, CanMove, CanMoveAt, IsUnderWay};
ghost use Rattle.oa_core.specs.Calls.{CallRuns, RunsAt, CallGoes, CallMade};

use crate::progress::{Move, Progress, Stop, Terms};
use core_entries::Entry;
use core_entries::step::run_on;
use core_ground::PlainWords;
use replay_steps::counting::is_at_limit;

impl<'a> Terms<'a> {
    /// Steps of a call of an entry, after it took the call: to the end of the call or of its fuel, and so many at most. It answers
    /// how many. A call that was just taken makes a step whatever its fuel.
    #[inline(always)]
    fn run_entry(&self, entry: &mut Entry, words: &mut PlainWords, next: Move, most: u64) -> u64
        requires belongs { BelongsTo self.now.pair self.now.setting entry.old.core }
        requires can { CanMove self.now.pair.target next entry.old }
        requires lawful { WordsSound self.now.pair.target self.now.setting words.old }
        requires most { 1 ≤ most }
        ensures ran { CallRuns self.now next most result words.old words.new entry.old entry.new }
        ensures belongs { BelongsTo self.now.pair self.now.setting entry.new.core }
        ensures lawful { WordsSound self.now.pair.target self.now.setting words.new }
    {
        self.begin_entry(entry, next);
        let fueled = entry.steps_left(self.fuel).max(1).min(most);
        let left = run_on(
            entry,
            words,
            self.prepared.barred(),
            &self.program,
            self.setting,
            fueled,
        );
        fueled - left
    }

    /// The same of a caller, in its place among the entries.
    #[inline(always)]
    fn run_caller(
        &self,
        entries: &mut Vec<Entry>,
        words: &mut PlainWords,
        caller: u32,
        next: Move,
        most: u64,
    ) -> u64
        requires belong { AllBelongTo self.now.pair self.now.setting entries.old.items }
        requires can { CanMoveAt self.now.pair.target next (slice_get entries.old.items caller) }
        requires lawful { WordsSound self.now.pair.target self.now.setting words.old }
        requires most { 1 ≤ most }
        ensures ran { RunsAt self.now next most result words.old words.new caller entries.old.items entries.new.items (slice_get entries.old.items caller) }
        ensures fewer { result ≤ most }
        ensures belong { AllBelongTo self.now.pair self.now.setting entries.new.items }
        ensures lawful { WordsSound self.now.pair.target self.now.setting words.new }
    {
        match entries.get_mut(caller as usize) {
            None => 0,
            Some(entry) => self.run_entry(entry, words, next, most),
        }
    }

    /// The same, of which the steps aren't counted.
    #[inline(always)]
    fn run_in(&self, now: &mut Progress, caller: u32, next: Move, most: u64) -> u64
        requires under_way { IsUnderWay self.now now.old }
        requires next { next_in self.now caller now.old ≡ Some next }
        requires most { 1 ≤ most }
        ensures ran { RunsAt self.now next most result now.old.words now.new.words caller now.old.entries now.new.entries (slice_get now.old.entries caller) }
        ensures fewer { result ≤ most }
        ensures uncounted { now.new.steps ≡ now.old.steps }
        ensures under_way { IsUnderWay self.now now.new }
    {
        self.run_caller(&mut now.entries, &mut now.words, caller, next, most)
    }

    /// The steps of a call, counted, up to the limit, which isn't reached before.
    #[inline(always)]
    fn run_call(&self, now: &mut Progress, caller: u32, next: Move)
        requires under_way { IsUnderWay self.now now.old }
        requires next { next_in self.now caller now.old ≡ Some next }
        requires below { now.old.steps < self.now.limit }
        ensures goes { CallGoes self.now caller now.old now.new }
        ensures more { now.old.steps < now.new.steps }
        ensures under_way { IsUnderWay self.now now.new }
    {
        let most = self.limit - now.steps;
        let made = self.run_in(now, caller, next, most);
        now.steps += made;
    }

    /// The steps of a call that a caller has next.
    ///
    /// # Errors
    /// The limit is reached.
    #[inline(always)]
    pub(crate) fn make_call(&self, now: &mut Progress, caller: u32, next: Move) -> Result<(), Stop>
        requires under_way { IsUnderWay self.now now.old }
        requires next { next_in self.now caller now.old ≡ Some next }
        ensures made { CallMade self.now caller now.old now.new result }
        ensures more { OnOk result (now.old.steps < now.new.steps) }
        ensures below { OnOk result (now.old.steps < self.now.limit) }
        ensures under_way { IsUnderWay self.now now.new }
    {
        if is_at_limit(self.limit, now.steps) {
            return Err(Stop::LongReplay { steps: now.steps });
        }
        self.run_call(now, caller, next);
        Ok(())
    }

    /// The steps of a call of a caller. That it has none to take is told before that the limit is reached.
    ///
    /// # Errors
    /// The caller has no step to take, or the limit is reached.
    pub(crate) fn call_of(&self, now: &mut Progress, caller: u32) -> Result<(), Stop>
        requires under_way { IsUnderWay self.now now.old }
        ensures made { CallMade self.now caller now.old now.new result }
        ensures more { OnOk result (now.old.steps < now.new.steps) }
        ensures below { OnOk result (now.old.steps < self.now.limit) }
        ensures under_way { IsUnderWay self.now now.new }
    {
        match self.next_of(now, caller) {
            None => Err(Stop::StepOfNobody { steps: now.steps }),
            Some(next) => self.make_call(now, caller, next),
        }
    }
}
