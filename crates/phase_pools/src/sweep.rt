//! A sweep: it raises the phase, warns every caller and gathers what is guarded, or loads what each has announced, makes ready what
//! was retired before, and pushes it onto the chain of its kind.

ghost use Rattle.std.specs.Prelude.{◌≡◌, ◌≤◌, ◌<◌, ◌^◌, ◌+◌, ◌*◌, max, length, None};
ghost use Rattle.oa_words.specs.Packed.{status_parts, head_word, head_parts};
ghost use Rattle.oa_words.specs.Words.{Head};
ghost use Rattle.oa_words.specs.declared.limits.TheConstants.{TOPS};
ghost use Rattle.phase_pools.specs.Accesses.{located, Exchanges, IsPhase, RaisesToPhase};
ghost use Rattle.phase_pools.specs.Pools.{sweep_begun, sweep_wants, sweep_accepts, finds_last, sweep_on, phase_read, phase_raised, warn_wanted, warn_next, warned_all, warned, low_after, hazard_read, hazard_next, status_read, freeing, made_ready, push_read, pushed};
ghost use Rattle.phase_pools.specs.Ranges.{SweepInRange, SweepTold, StandsAtSlot, IsHead};
ghost use Rattle.phase_pools.specs.declared.stages.Scheme.TheVariants.{Warned};

use crate::access::{Access, SweepEnd};
use crate::slots::{first_slot, last_slot};
use crate::stages::{Scheme, SweepStage};
use guard_words::gathered::Gathered;
use oa_words::packed::{Kind, head_parts, head_word, status_parts, status_word};
use oa_words::shape::Shape;
use std::marker::Model;

/// A sweep: its scheme, where it stands, the phase to which it raises (0 before it has one), the phase before which it recycles, and
/// the slots that it gathered.
///
/// This is the recycling of Cohen and Petrank (SPAA 2015): a new phase is announced by each caller's warning before the
/// hazards are read, so a caller that still reads what was retired finds out at its next check, and what it guards is
/// gathered. Slots that were retired before the phase and weren't gathered become ready, from the greatest down, and each is
/// pushed onto the chain of its kind's ready slots at once: so of each kind the least that became ready ends on top. If callers
/// announce phases instead, slots that were retired before each of these phases become ready.
#[derive(Drop)]
pub struct SweepState {
    scheme: Scheme,
    stage: SweepStage,
    bound: u64,
    low: u64,
    gathered: Gathered,
}

impl Model for SweepState {
    ghost use Rattle.std.specs.Prelude.{length, ◌≤◌};
    ghost use Rattle.oa_words.specs.declared.limits.TheConstants.{TOPS};
    ghost use Rattle.phase_pools.specs.Pools.{Sweep};
    ghost use Rattle.phase_pools.specs.Ranges.{GathersFew, HasPhase, StandsAtSlot};

    ghost Value = { Sweep };

    ghost view = { λ s. record { scheme = s.scheme; tops = TOPS; stage = s.stage; bound = s.bound; low = s.low; gathered = s.gathered } };

    ghost invariant = { λ s. GathersFew s.stage (length s.gathered) × HasPhase s.stage s.bound × (s.low ≤ s.bound) × StandsAtSlot s.stage };
}

/// The access to a caller's warning: it is raised, or what the caller has announced there is loaded.
fn warn(shape: &Shape, scheme: Scheme, caller: u32, bound: u64) -> Access
    requires caller { caller < shape.now.callers }
    requires phase { IsPhase bound }
    ensures same { result ≡ located shape.now (warn_wanted scheme caller bound) }
    ensures raises { RaisesToPhase result }
{
    let at = shape.warning_at(caller);
    match scheme {
        Scheme::Warned => Access::FetchMax { at, word: bound },
        Scheme::Announced(_) => Access::Load { at },
    }
}

/// The stage after the last warning: the first hazard, or the greatest slot if there are no guards.
fn warned_all(shape: &Shape, scheme: Scheme) -> SweepStage
    ensures same { result ≡ warned_all shape.now scheme }
    ensures within { SweepInRange shape.now result }
    ensures slot { StandsAtSlot result }
{
    shape.kept();
    match scheme {
        Scheme::Warned => SweepStage::ReadHazard(0, 0),
        Scheme::Announced(_) => SweepStage::ReadStatus(last_slot(shape)),
    }
}

/// The stage after a warning: that of the next caller, and then what follows all of them.
fn warn_next(shape: &Shape, scheme: Scheme, caller: u32) -> SweepStage
    requires { caller < shape.now.callers }
    ensures same { result ≡ warn_next shape.now scheme caller }
    ensures within { SweepInRange shape.now result }
    ensures slot { StandsAtSlot result }
{
    let callers = shape.callers();
    if caller + 1 < callers {
        return SweepStage::Warn(caller + 1);
    }
    warned_all(shape, scheme)
}

/// The phase before which a sweep recycles, after it has come to a warning with this word: if callers announce, it is at most
/// the phase that this one has announced.
fn low_after(scheme: Scheme, low: u64, word: u64) -> u64
    ensures same { result ≡ low_after scheme low word }
    ensures less { result ≤ low }
{
    match scheme {
        Scheme::Announced(_) if word != 0 => low.min(word),
        _ => low,
    }
}

/// The stage after a hazard: registers go first, then callers, and then the slots from the greatest down.
fn hazard_next(shape: &Shape, caller: u32, register: u32) -> SweepStage
    requires caller { caller < shape.now.callers }
    requires register { register < 8 }
    ensures same { result ≡ hazard_next shape.now caller register }
    ensures within { SweepInRange shape.now result }
{
    let callers = shape.callers();
    if register + 1 < 8 {
        SweepStage::ReadHazard(caller, register + 1)
    } else if caller + 1 < callers {
        SweepStage::ReadHazard(caller + 1, 0)
    } else {
        SweepStage::ReadStatus(last_slot(shape))
    }
}

impl SweepState {
    /// A sweep of a document's row before its first access, with nothing gathered, which warns the callers.
    pub fn begin() -> SweepState
        ensures { result ≡ sweep_begun TOPS Warned }
    {
        SweepState::begin_by(Scheme::Warned)
    }

    /// Whether this word is the last phase, and the sweep loads the phase.
    pub(crate) fn finds_last(&self, last_phase: u64, word: u64) -> bool
        ensures { result ≡ finds_last last_phase self.now.stage word }
    {
        match self.stage {
            SweepStage::ReadPhase => word == last_phase,
            _ => false,
        }
    }

    /// The same by a scheme.
    pub(crate) fn begin_by(scheme: Scheme) -> SweepState
        ensures { result ≡ sweep_begun TOPS scheme }
    {
        SweepState {
            scheme,
            stage: SweepStage::ReadPhase,
            bound: 0,
            low: 0,
            gathered: Gathered::empty(),
        }
    }

    /// What every sweep keeps: its row is a document's. A law for those who hold one; the body reads a field, which makes the view known.
    #[inline(always)]
    pub(crate) fn kept(&self)
        ensures { self.now.tops ≡ TOPS }
    {
        let _ = &self.stage;
    }

    /// The sweep's scheme.
    pub(crate) fn scheme(&self) -> Scheme
        ensures { result ≡ self.now.scheme }
    {
        self.scheme
    }

    /// The one access that the sweep wants; a warning is raised to a phase, from 1 to 2^50. The caller, register, slots and kind at
    /// which it stands are the shape's.
    pub fn pending(&self, shape: &Shape) -> Access
        requires { SweepInRange shape.now self.now.stage }
        ensures same { result ≡ located shape.now (sweep_wants self.now) }
        ensures raises { RaisesToPhase result }
    {
        match self.stage {
            SweepStage::ReadPhase => Access::Load {
                at: shape.phase_at(),
            },
            SweepStage::RaisePhase(p) => Access::CompareExchange {
                at: shape.phase_at(),
                expected: p,
                replacement: p + 1,
            },
            SweepStage::Warn(c) => warn(shape, self.scheme, c, self.bound),
            SweepStage::ReadHazard(c, r) => Access::Load {
                at: shape.hazard_at(c, r),
            },
            SweepStage::ReadStatus(j) => Access::Load {
                at: shape.status_at(j),
            },
            SweepStage::MakeReady(j, q) => Access::CompareExchange {
                at: shape.status_at(j),
                expected: status_word(q, Kind::Retired),
                replacement: status_word(self.bound, Kind::Ready),
            },
            SweepStage::PushHead(kind, _) => Access::Load {
                at: shape.head_at(kind),
            },
            SweepStage::PushLink(j, _, top) => Access::Store {
                at: shape.link_at(j),
                word: top as u64,
            },
            SweepStage::PushTop(kind, j, q, top) => push(shape, kind, j, q, top, self.bound),
        }
    }

    /// Takes the word that this access found, and says how the sweep ended; none exactly if it goes on. The caller,
    /// register, slots and kind at which it stands are the shape's, phases are at most the last one, which is at most 2^50, a
    /// hazard and the head's top are 0 or a slot, and a status has a kind. It stays within the shape.
    pub fn accept(&mut self, shape: &Shape, last_phase: u64, word: u64) -> Option<SweepEnd>
        requires last { last_phase ≤ 2 ^ 50 }
        requires range { SweepInRange shape.now self.old.stage }
        requires told { SweepTold shape.now last_phase self.old.stage word }
        ensures same { sweep_accepts shape.now last_phase self.old word ≡ record { sweep = self.new; ended = result } }
        ensures stays { SweepInRange shape.now self.new.stage }
    {
        match self.stage {
            SweepStage::ReadPhase => self.phase_read(shape, last_phase, word),
            SweepStage::RaisePhase(p) => {
                self.phase_raised(shape, p);
                None
            }
            SweepStage::Warn(c) => {
                self.warned(shape, c, word);
                None
            }
            SweepStage::ReadHazard(c, r) => {
                self.gather(shape, c, r, word);
                None
            }
            SweepStage::ReadStatus(j) => self.status_read(shape, j, word),
            SweepStage::MakeReady(j, q) => self.made_ready(shape, j, q, word),
            SweepStage::PushHead(_, j) => {
                self.push_read(shape, last_phase, j, word);
                None
            }
            SweepStage::PushLink(j, q, top) => {
                self.stage = SweepStage::PushTop(shape.kind_of(j), j, q, top);
                None
            }
            SweepStage::PushTop(_, j, q, top) => self.pushed(shape, j, q, top, word),
        }
    }

    /// The phase was loaded: the last one can't be raised, and ends the sweep.
    fn phase_read(&mut self, shape: &Shape, last_phase: u64, word: u64) -> Option<SweepEnd>
        requires last { last_phase ≤ 2 ^ 50 }
        requires range { SweepInRange shape.now self.old.stage }
        requires none { length self.old.gathered ≡ 0 }
        requires word { word ≤ last_phase }
        ensures same { phase_read last_phase self.old word ≡ record { sweep = self.new; ended = result } }
        ensures stays { SweepInRange shape.now self.new.stage }
    {
        if word == last_phase {
            return Some(SweepEnd::PhasesOver(word));
        }
        self.stage = SweepStage::RaisePhase(word);
        None
    }

    /// The exchange of the phase was made, and this phase is over, whoever raised it: the callers are warned.
    fn phase_raised(&mut self, shape: &Shape, p: u64)
        requires none { length self.old.gathered ≡ 0 }
        requires phase { p < 2 ^ 50 }
        ensures same { phase_raised self.old p ≡ record { sweep = self.new; ended = None } }
        ensures stays { SweepInRange shape.now self.new.stage }
    {
        shape.kept();
        self.bound = p + 1;
        self.low = self.bound;
        self.stage = SweepStage::Warn(0);
    }

    /// A caller's warning was raised, or loaded.
    fn warned(&mut self, shape: &Shape, caller: u32, word: u64)
        requires none { length self.old.gathered ≡ 0 }
        requires caller { caller < shape.now.callers }
        requires phase { IsPhase self.old.bound }
        ensures same { warned shape.now self.old caller word ≡ record { sweep = self.new; ended = None } }
        ensures stays { SweepInRange shape.now self.new.stage }
    {
        self.low = low_after(self.scheme, self.low, word);
        self.stage = warn_next(shape, self.scheme, caller);
    }

    /// A hazard was loaded, and the slot that it names is gathered.
    fn gather(&mut self, shape: &Shape, caller: u32, register: u32, word: u64)
        requires caller { caller < shape.now.callers }
        requires register { register < 8 }
        requires few { length self.old.gathered ≤ 8 * caller + register }
        requires phase { IsPhase self.old.bound }
        requires word { word ≤ shape.now.slots }
        ensures same { hazard_read shape.now self.old caller register word ≡ record { sweep = self.new; ended = None } }
        ensures stays { SweepInRange shape.now self.new.stage }
    {
        shape.kept();
        self.gathered.add(word as u32);
        self.stage = hazard_next(shape, caller, register);
    }

    /// A slot's status was loaded: only a retired slot may become ready.
    fn status_read(&mut self, shape: &Shape, slot: u32, word: u64) -> Option<SweepEnd>
        requires some { 1 ≤ slot }
        requires slot { slot ≤ shape.now.slots }
        requires range { SweepInRange shape.now self.old.stage }
        requires few { length self.old.gathered ≤ 64 }
        requires phase { IsPhase self.old.bound }
        ensures same { status_read shape.now self.old slot (status_parts word) ≡ record { sweep = self.new; ended = result } }
        ensures stays { SweepInRange shape.now self.new.stage }
    {
        match status_parts(word) {
            Some((q, Kind::Retired)) => self.retired_read(shape, slot, q),
            _ => self.slot_done(shape, slot),
        }
    }

    /// A slot is retired, since this phase: it becomes ready if the sweep recycles what was retired then and nothing guards it.
    fn retired_read(&mut self, shape: &Shape, slot: u32, q: u64) -> Option<SweepEnd>
        requires some { 1 ≤ slot }
        requires slot { slot ≤ shape.now.slots }
        requires range { SweepInRange shape.now self.old.stage }
        requires few { length self.old.gathered ≤ 64 }
        requires phase { IsPhase self.old.bound }
        ensures same { freeing shape.now self.old slot q Kind.Retired ≡ record { sweep = self.new; ended = result } }
        ensures stays { SweepInRange shape.now self.new.stage }
    {
        if q < self.low && !self.gathered.names(slot) {
            self.stage = SweepStage::MakeReady(slot, q);
            return None;
        }
        self.slot_done(shape, slot)
    }

    /// Nothing is left to do for a slot: the next lower one follows, and after the least the sweep ends.
    fn slot_done(&mut self, shape: &Shape, slot: u32) -> Option<SweepEnd>
        requires slot { slot ≤ shape.now.slots }
        requires range { SweepInRange shape.now self.old.stage }
        requires few { length self.old.gathered ≤ 64 }
        requires phase { IsPhase self.old.bound }
        ensures same { sweep_on shape.now self.old slot ≡ record { sweep = self.new; ended = result } }
        ensures stays { SweepInRange shape.now self.new.stage }
    {
        if slot > first_slot(shape) {
            self.stage = SweepStage::ReadStatus(slot - 1);
            return None;
        }
        Some(SweepEnd::Swept)
    }

    /// The exchange was made that makes a slot ready: if it succeeded, the slot is pushed.
    fn made_ready(&mut self, shape: &Shape, slot: u32, q: u64, word: u64) -> Option<SweepEnd>
        requires some { 1 ≤ slot }
        requires slot { slot ≤ shape.now.slots }
        requires range { SweepInRange shape.now self.old.stage }
        requires few { length self.old.gathered ≤ 64 }
        requires phase { IsPhase self.old.bound }
        requires retired { q ≤ 2 ^ 50 }
        ensures same { made_ready shape.now self.old slot q word ≡ record { sweep = self.new; ended = result } }
        ensures stays { SweepInRange shape.now self.new.stage }
    {
        if word == status_word(q, Kind::Retired) {
            self.stage = SweepStage::PushHead(shape.kind_of(slot), slot);
            return None;
        }
        self.slot_done(shape, slot)
    }

    /// The head was loaded, onto which a slot is pushed.
    fn push_read(&mut self, shape: &Shape, last_phase: u64, slot: u32, word: u64)
        requires some { 1 ≤ slot }
        requires slot { slot ≤ shape.now.slots }
        requires few { length self.old.gathered ≤ 64 }
        requires phase { IsPhase self.old.bound }
        requires last { last_phase ≤ 2 ^ 50 }
        requires word { IsHead shape.now last_phase word }
        ensures same { push_read self.old slot (head_parts shape.now.tops word) ≡ record { sweep = self.new; ended = None } }
        ensures stays { SweepInRange shape.now self.new.stage }
    {
        shape.kept();
        let (q, top) = head_parts(word);
        self.stage = SweepStage::PushLink(slot, q, top as u32);
    }

    /// The exchange was made that puts a slot on top: if it failed, the head is loaded again.
    fn pushed(&mut self, shape: &Shape, slot: u32, q: u64, top: u32, word: u64) -> Option<SweepEnd>
        requires some { 1 ≤ slot }
        requires slot { slot ≤ shape.now.slots }
        requires top { top ≤ shape.now.slots }
        requires range { SweepInRange shape.now self.old.stage }
        requires few { length self.old.gathered ≤ 64 }
        requires phase { IsPhase self.old.bound }
        requires head { q ≤ 2 ^ 50 }
        ensures same { pushed shape.now self.old slot q top word ≡ record { sweep = self.new; ended = result } }
        ensures stays { SweepInRange shape.now self.new.stage }
    {
        shape.kept();
        if word == head_word(q, top) {
            return self.slot_done(shape, slot);
        }
        self.stage = SweepStage::PushHead(shape.kind_of(slot), slot);
        None
    }
}

/// The exchange that puts a slot on top of its kind's chain, under the greater of the head's phase and the sweep's.
fn push(shape: &Shape, kind: u32, slot: u32, q: u64, top: u32, bound: u64) -> Access
    requires kind { kind < length shape.now.kinds }
    requires slot { slot ≤ shape.now.slots }
    requires top { top ≤ shape.now.slots }
    requires phase { IsPhase bound }
    requires head { q ≤ 2 ^ 50 }
    ensures same { result ≡ located shape.now (Exchanges (Head kind) (head_word TOPS q top) (head_word TOPS (max q bound) slot)) }
    ensures raises { RaisesToPhase result }
{
    shape.kept();
    Access::CompareExchange {
        at: shape.head_at(kind),
        expected: head_word(q, top),
        replacement: head_word(q.max(bound), slot),
    }
}
