//! A claim: takes the ready slot on top of its kind's chain, and sweeps if there is none.

ghost use Rattle.std.specs.Prelude.{◌≡◌, ◌≤◌, ◌<◌, ◌^◌, length, None};
ghost use Rattle.oa_words.specs.Packed.{head_parts, head_word};
ghost use Rattle.oa_words.specs.Words.{Head};
ghost use Rattle.oa_words.specs.declared.limits.TheConstants.{TOPS};
ghost use Rattle.phase_pools.specs.Accesses.{located, Exchanges, RaisesToPhase};
ghost use Rattle.phase_pools.specs.Pools.{claim_begun, claim_wants, claim_takes, claim_accepts, look_begun, look_ended, look_took, sweep_started, sweep_follows, sweep_ended, finds_last, phases_end};
ghost use Rattle.phase_pools.specs.Ranges.{ClaimInRange, ClaimTold, HasOwn, IsHead};
ghost use Rattle.phase_pools.specs.declared.stages.Scheme.TheVariants.{Warned, Announced};

use crate::access::{Access, ClaimEnd, SweepEnd};
use crate::stages::{ClaimStage, Scheme};
use crate::sweep::SweepState;
use oa_words::packed::{Kind, head_parts, head_word, status_word};
use oa_words::shape::Shape;
use std::marker::Model;

/// A claim: the kind of which it takes a slot, where it stands, how many of its sweeps have ended, and its sweep. It takes the slot on
/// top of the chain of that kind's ready slots. If there is none, it sweeps and looks again, twice at most.
///
/// The chain is a stack as Treiber's (1986): a slot is taken by an exchange of the head, so two callers never claim the same
/// one. The head bears a phase beside the top, so a slot that was taken and pushed again meanwhile isn't taken for one that
/// stayed, since its link may be another by then. A caller that finds no free node ends the phase, as in the recycling of
/// Cohen and Petrank (SPAA 2015).
#[derive(Drop)]
pub struct ClaimState {
    kind: u32,
    stage: ClaimStage,
    sweeps: u8,
    sweep: SweepState,
}

impl Model for ClaimState {
    ghost use Rattle.phase_pools.specs.Pools.{Claim};
    ghost use Rattle.phase_pools.specs.Ranges.{SweepsFew, TakesFitting};

    ghost Value = { Claim };

    ghost view = { λ c. record { kind = c.kind; stage = c.stage; sweeps = c.sweeps; sweep = c.sweep } };

    ghost invariant = { λ c. SweepsFew c.stage c.sweeps × TakesFitting c.stage };
}

impl ClaimState {
    /// A claim of a slot of a kind, before the first access of its first look. Its sweeps warn the callers. The kind is one of the
    /// shape's.
    pub fn begin(shape: &Shape, kind: u32) -> ClaimState
        requires { kind < length shape.now.kinds }
        ensures same { result ≡ claim_begun shape.now kind Warned }
        ensures within { ClaimInRange shape.now result.sweep result.stage }
    {
        shape.kept();
        ClaimState {
            kind,
            stage: ClaimStage::ReadHead,
            sweeps: 0,
            sweep: SweepState::begin(),
        }
    }

    /// The same for a caller that announces phases, whose number is its own: it withdraws its announcement before it sweeps.
    pub fn begin_announced(shape: &Shape, kind: u32, own: u32) -> ClaimState
        requires kind { kind < length shape.now.kinds }
        requires own { own < shape.now.callers }
        ensures same { result ≡ claim_begun shape.now kind (Announced own) }
        ensures within { ClaimInRange shape.now result.sweep result.stage }
    {
        shape.kept();
        ClaimState {
            kind,
            stage: ClaimStage::ReadHead,
            sweeps: 0,
            sweep: SweepState::begin_by(Scheme::Announced(own)),
        }
    }

    /// The one access that the claim wants; a warning is raised to a phase, from 1 to 2^50. The claim's kind and the caller, register
    /// and slots at which it stands are the shape's, and the last phase is at most 2^50.
    pub fn pending(&self, shape: &Shape, last_phase: u64) -> Access
        requires last { last_phase ≤ 2 ^ 50 }
        requires kind { self.now.kind < length shape.now.kinds }
        requires range { ClaimInRange shape.now self.now.sweep self.now.stage }
        ensures same { result ≡ located shape.now (claim_wants self.now) }
        ensures raises { RaisesToPhase result }
    {
        match self.stage {
            ClaimStage::ReadHead => Access::Load {
                at: shape.head_at(self.kind),
            },
            ClaimStage::ReadLink(_, top) => Access::Load {
                at: shape.link_at(top),
            },
            ClaimStage::Take(q, top, next) => {
                self.sweep.kept();
                take(shape, self.kind, q, top, next)
            }
            ClaimStage::StoreUsed(q, top) => Access::Store {
                at: shape.status_at(top),
                word: status_word(q, Kind::Used),
            },
            ClaimStage::Withdraw(own) => Access::Store {
                at: shape.warning_at(own),
                word: 0,
            },
            ClaimStage::Sweeps => self.sweep.pending(shape),
        }
    }

    /// How many of its sweeps have ended.
    pub fn sweeps(&self) -> u8
        ensures { result ≡ self.now.sweeps }
    {
        self.sweeps
    }

    /// Whether the claim takes a slot if its access found this word. It is counted then, but ends only with the store after it.
    pub fn takes(&self, shape: &Shape, word: u64) -> bool
        requires { ClaimInRange shape.now self.now.sweep self.now.stage }
        ensures { result ≡ claim_takes shape.now self.now word }
    {
        shape.kept();
        match self.stage {
            ClaimStage::Take(q, top, _) => word == head_word(q, top),
            ClaimStage::ReadHead
            | ClaimStage::ReadLink(..)
            | ClaimStage::StoreUsed(..)
            | ClaimStage::Withdraw(_)
            | ClaimStage::Sweeps => false,
        }
    }

    /// How the claim ends if its access found this word; none exactly if it goes on.
    #[tactic(auto, using(crate::proofs::Ending::sweep_end))]
    pub fn end(&self, shape: &Shape, last_phase: u64, word: u64) -> Option<ClaimEnd>
        ensures { result ≡ (claim_accepts shape.now last_phase self.now word).ended }
    {
        shape.kept();
        match self.stage {
            ClaimStage::ReadHead => self.look_end(word),
            ClaimStage::StoreUsed(_, top) => Some(ClaimEnd::Claimed(top)),
            ClaimStage::Sweeps => self.sweep_end(last_phase, word),
            ClaimStage::ReadLink(..) | ClaimStage::Take(..) | ClaimStage::Withdraw(_) => None,
        }
    }

    /// How it ends after a load of the head.
    #[tactic(auto, using(crate::proofs::Ending::look_end))]
    fn look_end(&self, word: u64) -> Option<ClaimEnd>
        ensures { result ≡ (look_begun self.now (head_parts TOPS word)).ended }
    {
        let (_, top) = head_parts(word);
        if top == 0 && self.sweeps == 2 {
            Some(ClaimEnd::Full)
        } else {
            None
        }
    }

    /// How it ends after an access of its sweep.
    fn sweep_end(&self, last_phase: u64, word: u64) -> Option<ClaimEnd>
        ensures { result ≡ phases_end (finds_last last_phase self.now.sweep.stage word) word }
    {
        if self.sweep.finds_last(last_phase, word) {
            Some(ClaimEnd::PhasesOver(word))
        } else {
            None
        }
    }

    /// Takes the word that this access found, and says how the claim ended; none exactly if it goes on. The claim's kind, the
    /// number of its caller if that announces, and the caller, register and slots at which it stands are the shape's. Phases are at
    /// most the last one, which is at most 2^50; a hazard, a link and the head's top are 0 or a slot; and a status has a kind. It
    /// stays within the shape.
    pub fn accept(&mut self, shape: &Shape, last_phase: u64, word: u64) -> Option<ClaimEnd>
        requires last { last_phase ≤ 2 ^ 50 }
        requires kind { self.old.kind < length shape.now.kinds }
        requires own { HasOwn shape.now self.old.sweep.scheme }
        requires range { ClaimInRange shape.now self.old.sweep self.old.stage }
        requires told { ClaimTold shape.now last_phase self.old.sweep self.old.stage word }
        ensures same { claim_accepts shape.now last_phase self.old word ≡ record { claim = self.new; ended = result } }
        ensures stays { ClaimInRange shape.now self.new.sweep self.new.stage }
    {
        match self.stage {
            ClaimStage::ReadHead => self.look_begun(shape, last_phase, word),
            ClaimStage::ReadLink(q, top) => {
                shape.kept();
                self.stage = ClaimStage::Take(q, top, word as u32);
                None
            }
            ClaimStage::Take(q, top, _) => {
                self.look_took(shape, q, top, word);
                None
            }
            ClaimStage::StoreUsed(_, top) => Some(ClaimEnd::Claimed(top)),
            ClaimStage::Withdraw(_) => {
                self.begin_sweep(shape);
                None
            }
            ClaimStage::Sweeps => {
                let end = self.sweep.accept(shape, last_phase, word);
                self.swept(shape, end)
            }
        }
    }

    /// The sweep took a word. If it has ended, a look follows, or, if no phase is left, the claim ends too.
    fn swept(&mut self, shape: &Shape, end: Option<SweepEnd>) -> Option<ClaimEnd>
        requires few { self.old.sweeps < 2 }
        requires range { ClaimInRange shape.now self.old.sweep self.old.stage }
        ensures same { sweep_ended self.old self.old.sweep end ≡ record { claim = self.new; ended = result } }
        ensures stays { ClaimInRange shape.now self.new.sweep self.new.stage }
    {
        match end {
            None => None,
            Some(SweepEnd::PhasesOver(p)) => Some(ClaimEnd::PhasesOver(p)),
            Some(SweepEnd::Swept) => {
                self.stage = ClaimStage::ReadHead;
                self.sweeps += 1;
                None
            }
        }
    }

    /// The head was loaded: the look goes on with the slot on top, and ends if there is none.
    fn look_begun(&mut self, shape: &Shape, last_phase: u64, word: u64) -> Option<ClaimEnd>
        requires few { self.old.sweeps ≤ 2 }
        requires range { ClaimInRange shape.now self.old.sweep self.old.stage }
        requires last { last_phase ≤ 2 ^ 50 }
        requires own { HasOwn shape.now self.old.sweep.scheme }
        requires word { IsHead shape.now last_phase word }
        ensures same { look_begun self.old (head_parts shape.now.tops word) ≡ record { claim = self.new; ended = result } }
        ensures stays { ClaimInRange shape.now self.new.sweep self.new.stage }
    {
        shape.kept();
        let (q, top) = head_parts(word);
        if top == 0 {
            return self.look_ended(shape);
        }
        self.stage = ClaimStage::ReadLink(q, top as u32);
        None
    }

    /// The exchange was made that takes the top slot: if it failed, the look begins again.
    fn look_took(&mut self, shape: &Shape, q: u64, top: u32, word: u64)
        requires top { top ≤ shape.now.slots }
        requires phase { q ≤ 2 ^ 50 }
        requires few { self.old.sweeps ≤ 2 }
        ensures same { look_took shape.now self.old q top word ≡ record { claim = self.new; ended = None } }
        ensures stays { ClaimInRange shape.now self.new.sweep self.new.stage }
    {
        shape.kept();
        self.stage = if word == head_word(q, top) {
            ClaimStage::StoreUsed(q, top)
        } else {
            ClaimStage::ReadHead
        };
    }

    /// A look found no slot: a sweep follows, and after two sweeps the claim ends.
    fn look_ended(&mut self, shape: &Shape) -> Option<ClaimEnd>
        requires few { self.old.sweeps ≤ 2 }
        requires own { HasOwn shape.now self.old.sweep.scheme }
        requires range { ClaimInRange shape.now self.old.sweep self.old.stage }
        ensures same { look_ended self.old ≡ record { claim = self.new; ended = result } }
        ensures stays { ClaimInRange shape.now self.new.sweep self.new.stage }
    {
        if self.sweeps == 2 {
            return Some(ClaimEnd::Full);
        }
        self.sweep_follows(shape);
        None
    }

    /// A sweep follows. If the caller announces, it withdraws its announcement before the first sweep.
    fn sweep_follows(&mut self, shape: &Shape)
        requires few { self.old.sweeps < 2 }
        requires own { HasOwn shape.now self.old.sweep.scheme }
        ensures same { sweep_follows self.old.sweep.scheme self.old.sweeps self.old ≡ record { claim = self.new; ended = None } }
        ensures stays { ClaimInRange shape.now self.new.sweep self.new.stage }
    {
        match self.sweep.scheme() {
            Scheme::Announced(own) if self.sweeps == 0 => {
                self.stage = ClaimStage::Withdraw(own);
            }
            _ => self.begin_sweep(shape),
        }
    }

    /// A sweep begins, with nothing gathered.
    fn begin_sweep(&mut self, shape: &Shape)
        requires few { self.old.sweeps < 2 }
        ensures same { sweep_started self.old ≡ record { claim = self.new; ended = None } }
        ensures stays { ClaimInRange shape.now self.new.sweep self.new.stage }
    {
        self.sweep.kept();
        self.stage = ClaimStage::Sweeps;
        self.sweep = SweepState::begin_by(self.sweep.scheme());
    }
}

/// The exchange that takes the top slot from the chain, and leaves on top what its link named.
fn take(shape: &Shape, kind: u32, q: u64, top: u32, next: u32) -> Access
    requires kind { kind < length shape.now.kinds }
    requires phase { q ≤ 2 ^ 50 }
    requires top { top ≤ shape.now.slots }
    requires next { next ≤ shape.now.slots }
    ensures same { result ≡ located shape.now (Exchanges (Head kind) (head_word TOPS q top) (head_word TOPS q next)) }
    ensures raises { RaisesToPhase result }
{
    shape.kept();
    Access::CompareExchange {
        at: shape.head_at(kind),
        expected: head_word(q, top),
        replacement: head_word(q, next),
    }
}
