//! Replay: the run of scripts that the turns of a schedule give.

ghost use Rattle.std.specs.Prelude.{◌≡◌, ◌≤◌, IfOk, All, length};
ghost use Rattle.caller_parts.specs.Calls.{AreCalls};
ghost use Rattle.caller_parts.specs.Settings.{Fits};
ghost use Rattle.core_runs.specs.Replays.{replay_start, replayed};
ghost use Rattle.replay_steps.specs.Entries.{IsShort, HasRooms};
ghost use Rattle.replay_steps.specs.Turns.{replayed_from};
ghost use Rattle.oa_core.specs.Finals.{phase_of, is_spent_in, replay_limit, replay_of, AnswersTurns, AnswersReplay, EndsRun};
ghost use Rattle.oa_core.specs.Shown.{replay_by, terms_of, shown, bared, told, error_of, final_of, end_of, answer_of, SuitsReplay, IsUnderWay};
ghost use Rattle.oa_core.specs.Stops.{StopsAfter};
ghost use Rattle.oa_core.specs.States.{RunsInRow};

use crate::limits::MOST_STEPS;
use crate::progress::{Progress, Stop, Terms};
use barrier_check::Barred;
use caller_steps::{Call, Setting};
use core_entries::Entry;
use core_ground::{PlainWords, Prepared};
use norm_lang::list::Listed;
use replay_steps::entries::put_entries;
use schedule_turns::Turn;
use std::alloc::{AllocError, Global};
use std::marker::Model;

/// Why a schedule isn't replayed.
#[derive(Clone, Copy, Debug, PartialEq, Eq)]
pub enum ReplayError {
    /// Memory ran out, before the first step.
    Memory,
    /// A turn needs a step of a caller that has none to take, or that doesn't exist.
    StepOfNobody {
        /// The steps made before.
        steps: u64,
    },
    /// 20,000,000 steps were made, and another is wanted.
    LongReplay {
        /// The steps made.
        steps: u64,
    },
}

/// Calls, in order.
pub type CallList = Listed<Call>;

/// The words and the entries in which a run of scripts ended.
#[derive(Drop)]
pub struct CoreState {
    pub(crate) words: PlainWords,
    pub(crate) entries: Vec<Entry>,
    pub(crate) fuel: u64,
}

impl Model for CoreState {
    ghost use Rattle.oa_core.specs.Finals.{Final};

    ghost Value = { Final };

    ghost view = { λ s. record { words = s.words; entries = s.entries.items; fuel = s.fuel } };
}

impl CoreState {
    /// The phase.
    pub fn phase(&self) -> u64
        ensures { result ≡ phase_of self.now }
    {
        self.words.phase()
    }

    /// The callers' entries, by their numbers.
    pub fn entries(&self) -> &[Entry]
        ensures { result.now ≡ self.now.entries }
    {
        &self.entries
    }

    /// Whether an operation of this caller was given its fuel of steps and hasn't ended.
    pub fn is_spent(&self, caller: u32) -> bool
        ensures { result ≡ is_spent_in self.now caller }
    {
        match self.entries.get(caller as usize) {
            None => false,
            Some(entry) => entry.is_spent(self.fuel),
        }
    }
}

/// The start of a replay.
fn start(alloc: Global, terms: &Terms) -> Result<Progress, AllocError>
    requires suits { SuitsReplay terms.now }
    ensures started { IfOk result (λ now. shown now ≡ replay_start (replay_by terms.now)) }
    ensures under_way { IfOk result (λ now. IsUnderWay terms.now now) }
{
    terms.setting.kept();
    terms.prepared.kept();
    terms.setting.shape().kept();
    let words = PlainWords::new(alloc, terms.prepared.barred(), terms.setting)?;
    let entries = put_entries(alloc, terms.scripts)?;
    Ok(Progress {
        words,
        entries,
        steps: 0,
    })
}

/// The turns, and then each caller to its end.
fn run(terms: &Terms, now: &mut Progress, schedule: &[Turn]) -> Result<(), Stop>
    requires under_way { IsUnderWay terms.now now.old }
    ensures made { told result now.new ≡ bared (replayed_from (replay_by terms.now) schedule.now (shown now.old)) }
    ensures under_way { IsUnderWay terms.now now.new }
{
    terms.make_turns(now, schedule)?;
    terms.end_callers(now)
}

fn error_of(stop: Stop) -> ReplayError
    ensures { result ≡ error_of stop }
{
    match stop {
        Stop::StepOfNobody { steps } => ReplayError::StepOfNobody { steps },
        Stop::LongReplay { steps } => ReplayError::LongReplay { steps },
    }
}

#[tactic(auto, unfolding(crate::specs::Finals::replay_limit))]
fn replay_limit() -> u64
    ensures { result ≡ replay_limit }
{
    MOST_STEPS
}

/// The state in which a replay has ended.
fn state_of(now: Progress, fuel: u64) -> CoreState
    ensures { result ≡ final_of now fuel }
{
    CoreState {
        words: now.words,
        entries: now.entries,
        fuel,
    }
}

/// How a replay has ended.
fn end_of(made: Result<(), Stop>, now: Progress, fuel: u64) -> Result<CoreState, Stop>
    ensures { result ≡ end_of made now fuel }
{
    match made {
        Err(stop) => Err(stop),
        Ok(()) => Ok(state_of(now, fuel)),
    }
}

/// From a state on.
fn replay_from(terms: &Terms, now: Progress, schedule: &[Turn]) -> Result<CoreState, Stop>
    requires under_way { IsUnderWay terms.now now }
    ensures replayed { AnswersTurns result terms.now.fuel (replayed_from (replay_by terms.now) schedule.now (shown now)) }
    ensures rooms { IfOk result (λ s. HasRooms terms.now.scripts s.entries) }
{
    let mut later = now;
    let made = run(terms, &mut later, schedule);
    end_of(made, later, terms.fuel)
}

/// A replay of scripts that is ready to be made. It holds all the memory that it needs: to make it takes none.
#[derive(Drop)]
pub struct ReadyReplay<'a> {
    terms: Terms<'a>,
    start: Progress,
}

impl<'a> Model for ReadyReplay<'a> {
    ghost use Rattle.std.specs.Prelude.{◌≡◌};
    ghost use Rattle.core_runs.specs.Replays.{replay_start};
    ghost use Rattle.oa_core.specs.Shown.{Terms as Told, replay_by, shown, IsUnderWay};

    ghost Value = { Told };

    ghost view = { λ r. r.terms };

    ghost invariant = { λ r. IsUnderWay r.terms r.start × (shown r.start ≡ replay_start (replay_by r.terms)) };
}

impl<'a> ReadyReplay<'a> {
    /// Takes the memory for a replay of scripts, one for each caller, on a prepared target, whose program is made here once for all
    /// steps.
    ///
    /// # Errors
    /// Memory ran out.
    pub fn new(
        alloc: Global,
        prepared: &'a Prepared<'a>,
        setting: &'a Setting,
        scripts: &'a [CallList],
        fuel: u64,
    ) -> Result<ReadyReplay<'a>, AllocError>
        requires fits { Fits prepared.now.target setting.now }
        requires count { length scripts.now ≡ setting.now.sizes.callers }
        requires calls { All (AreCalls prepared.now.target) scripts.now }
        requires few { All IsShort scripts.now }
        ensures { IfOk result (λ r. r ≡ terms_of prepared.now setting.now scripts.now fuel) }
    {
        let terms = Terms {
            prepared,
            program: prepared.program(),
            setting,
            scripts,
            fuel,
            limit: replay_limit(),
        };
        match start(alloc, &terms) {
            Ok(start) => Ok(ReadyReplay { terms, start }),
            Err(error) => Err(error),
        }
    }

    /// Makes the turns of a schedule in order, and then each caller's steps to its end.
    ///
    /// # Errors
    /// A turn needs a step of nobody, or the limit of steps is reached and another is wanted.
    pub fn make(self, schedule: &[Turn]) -> Result<CoreState, Stop>
        ensures replayed { AnswersTurns result self.entry.fuel (replayed (replay_by self.entry) schedule.now) }
        ensures rooms { IfOk result (λ s. HasRooms self.entry.scripts s.entries) }
    {
        let ReadyReplay { terms, start } = self;
        replay_from(&terms, start, schedule)
    }

    /// How many turns of a schedule it makes whole before the one at which it stops; all of them, if it stops at none.
    pub fn count_whole(self, schedule: &[Turn]) -> usize
        ensures { StopsAfter (replay_by self.entry) schedule.now (replay_start (replay_by self.entry)) result }
    {
        let ReadyReplay { terms, start } = self;
        let mut now = start;
        terms.count_turns(&mut now, schedule)
    }
}

/// What is answered by how a replay has ended.
fn answer_of(ended: Result<CoreState, Stop>) -> Result<CoreState, ReplayError>
    ensures { result ≡ answer_of ended }
{
    match ended {
        Err(stop) => Err(error_of(stop)),
        Ok(state) => Ok(state),
    }
}

/// Replays scripts on a prepared target.
fn replay_prepared<'a>(
    alloc: Global,
    prepared: &'a Prepared<'a>,
    setting: &'a Setting,
    scripts: &'a [CallList],
    fuel: u64,
    schedule: &[Turn],
) -> Result<CoreState, ReplayError>
    requires fits { Fits prepared.now.target setting.now }
    requires count { length scripts.now ≡ setting.now.sizes.callers }
    requires calls { All (AreCalls prepared.now.target) scripts.now }
    requires few { All IsShort scripts.now }
    ensures replayed { AnswersReplay result fuel (replayed (replay_of prepared.now.target setting.now scripts.now fuel) schedule.now) }
    ensures rooms { IfOk result (λ s. HasRooms scripts.now s.entries) }
{
    match ReadyReplay::new(alloc, prepared, setting, scripts, fuel) {
        Ok(ready) => answer_of(ready.make(schedule)),
        Err(_) => Err(ReplayError::Memory),
    }
}

/// Replays scripts, one for each caller: the turns of a schedule in order, and then each caller to its end, in the order of
/// their numbers. A caller has a step to take if its operation runs or its script has a further call, and no operation
/// of it was spent. An operation is spent if `fuel` steps were made for it and it hasn't ended.
///
/// The state is that of the complete run which the turns give. If the target's text is proper, this run is one of the text on memory
/// that is never recycled: see `FollowsSource`. In this state, as in each to which events lead, nothing leads out of
/// the row.
///
/// It is meant for optimistic access: under epochs a call that comes to a check of the target stays there until its fuel is spent.
///
/// # Errors
/// A turn needs a step of a caller that has none to take or that doesn't exist, 20,000,000 steps were made and another is
/// wanted, or memory ran out, before the first step.
#[tactic(auto, using(crate::proofs::Ending::runs_in_row))]
pub fn replay(
    alloc: Global,
    barred: &Barred,
    setting: &Setting,
    scripts: &[CallList],
    fuel: u64,
    schedule: &[Turn],
) -> Result<CoreState, ReplayError>
    requires fits { Fits barred.now.target setting.now }
    requires count { length scripts.now ≡ setting.now.sizes.callers }
    requires calls { All (AreCalls barred.now.target) scripts.now }
    requires few { All IsShort scripts.now }
    requires fuel { 1 ≤ fuel }
    ensures replayed { AnswersReplay result fuel (replayed (replay_of barred.now.target setting.now scripts.now fuel) schedule.now) }
    ensures complete { IfOk result (λ s. EndsRun barred.now.target barred.now.source setting.now scripts.now fuel schedule.now s) }
    ensures in_row { RunsInRow barred.now.target setting.now }
    ensures rooms { IfOk result (λ s. HasRooms scripts.now s.entries) }
{
    barred.kept();
    setting.kept();
    let prepared = Prepared::new(barred);
    replay_prepared(alloc, &prepared, setting, scripts, fuel, schedule)
}
