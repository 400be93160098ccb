//! The retirement of a slot: its status says so, with the phase in which its node was already unlinked.

ghost use Rattle.std.specs.Prelude.{◌≡◌, ◌≤◌, Some, None, IsTrue, if◌then◌else◌};
ghost use Rattle.phase_pools.specs.Accesses.{located};
ghost use Rattle.phase_pools.specs.Pools.{retire_begun, retire_wants, retire_accepts};
ghost use Rattle.phase_pools.specs.Ranges.{RetireTold};

use crate::access::Access;
use crate::stages::RetireStage;
use oa_words::packed::{Kind, status_word};
use oa_words::shape::Shape;
use std::marker::Model;

/// A retirement: the slot, and where it stands. Its accesses are a load of the phase and a store of the slot's status.
///
/// It is begun after the exchange that unlinked the node, so the phase that it loads is no earlier than the unlinking: what
/// was read before a later phase was announced can't lead to the node unnoticed (Cohen and Petrank, SPAA 2015).
#[derive(Drop)]
pub struct RetireState {
    slot: u32,
    stage: RetireStage,
}

impl Model for RetireState {
    ghost use Rattle.std.specs.Prelude.{◌≤◌};
    ghost use Rattle.phase_pools.specs.Pools.{Retirement};
    ghost use Rattle.phase_pools.specs.Ranges.{StoresFitting};

    ghost Value = { Retirement };

    ghost view = { λ r. record { slot = r.slot; stage = r.stage } };

    ghost invariant = { λ r. (1 ≤ r.slot) × StoresFitting r.stage };
}

impl RetireState {
    /// A retirement before its first access. The slot isn't 0.
    pub fn begin(slot: u32) -> RetireState
        requires { 1 ≤ slot }
        ensures { result ≡ retire_begun slot }
    {
        RetireState {
            slot,
            stage: RetireStage::ReadPhase,
        }
    }

    /// The one access that the retirement wants. Its slot is one of the shape's.
    pub fn pending(&self, shape: &Shape) -> Access
        requires { self.now.slot ≤ shape.now.slots }
        ensures { result ≡ located shape.now (retire_wants self.now) }
    {
        match self.stage {
            RetireStage::ReadPhase => Access::Load {
                at: shape.phase_at(),
            },
            RetireStage::StoreStatus(p) => Access::Store {
                at: shape.status_at(self.slot),
                word: status_word(p, Kind::Retired),
            },
        }
    }

    /// Takes the word that this access found; true exactly if the retirement has ended, and then it is unchanged. Its slot is
    /// one of the shape's, and if the phase was loaded, the word is a phase.
    pub fn accept(&mut self, shape: &Shape, word: u64) -> bool
        requires slot { self.old.slot ≤ shape.now.slots }
        requires told { RetireTold self.old.stage word }
        ensures same { retire_accepts self.old word ≡ (if result then None else Some self.new) }
        ensures kept { IsTrue result → self.new ≡ self.old }
    {
        match self.stage {
            RetireStage::ReadPhase => {
                self.stage = RetireStage::StoreStatus(word);
                false
            }
            RetireStage::StoreStatus(_) => true,
        }
    }
}
