//! What a run is told once.

ghost use Rattle.std.specs.Prelude.{◌≡◌, ◌≤◌, length};
ghost use Rattle.caller_parts.specs.declared.limits.TheConstants.{MOST_PHASES};
ghost use Rattle.caller_parts.specs.Settings.{setting_or_fault, have_slots, HaveSlots, IsSetting, IsSmall};

use crate::limits::MOST_PHASES;
use oa_words::shape::Shape;
use std::marker::Model;

/// Why a setting is refused.
#[derive(Clone, Copy, Debug, PartialEq, Eq)]
pub enum SettingFault {
    /// A kind has more initial nodes than slots.
    Nodes,
    /// The phases aren't in order, from 1 to 2^50.
    Phases,
}

/// The scheme by which the slots of nodes that were taken out are given out again.
#[derive(Clone, Copy, Debug, PartialEq, Eq)]
pub enum Reclamation {
    /// Optimistic access: readers check after a read whether they were warned, and guard what they exchange (Cohen and Petrank, SPAA 2015).
    Optimistic,
    /// Epochs: a caller announces the phase in which its operation began, and nothing is recycled that was retired since then (Fraser,
    /// "Practical Lock-Freedom", 2004).
    Epochs,
}

/// The scheme by which nodes are recycled, the shape of the row of words, the first and the last phase, and how many initial nodes each
/// kind has: no more than slots. Phases are from 1 to 2^50.
#[derive(Drop)]
pub struct Setting {
    reclamation: Reclamation,
    shape: Shape,
    first: u64,
    last: u64,
    nodes: [u32; 4],
}

impl Model for Setting {
    ghost use Rattle.caller_parts.specs.Settings.{Setting as Told, IsSetting, IsSmall};

    ghost Value = { Told };

    ghost view = { λ s. record { reclamation = s.reclamation; sizes = s.shape; first = s.first; last = s.last; nodes = s.nodes } };

    ghost invariant = { λ s.
        IsSetting (record { reclamation = s.reclamation; sizes = s.shape; first = s.first; last = s.last; nodes = s.nodes })
        × IsSmall (record { reclamation = s.reclamation; sizes = s.shape; first = s.first; last = s.last; nodes = s.nodes }) };
}

/// Whether each kind has a slot for each of its initial nodes.
fn have_slots(shape: &Shape, nodes: &[u32; 4]) -> bool
    ensures { result ≡ have_slots shape.now nodes.now (length shape.now.kinds) }
{
    let mut fit = true;
    for kind in 0..shape.kinds() {
        fit = fit && nodes[kind as usize] <= shape.slots_of(kind);
    }
    fit
}

impl Setting {
    /// A setting of a scheme, as `new` makes one of optimistic access.
    ///
    /// # Errors
    /// `Nodes` if a kind has more initial nodes than slots, else `Phases` unless `1 <= first_phase <= last_phase <= 2^50`.
    #[tactic(auto, using(crate::proofs::KindCounts::kinds_have_slots))]
    pub fn of(
        reclamation: Reclamation,
        shape: Shape,
        first_phase: u64,
        last_phase: u64,
        nodes: [u32; 4],
    ) -> Result<Setting, SettingFault>
        ensures { result ≡ setting_or_fault (record { reclamation = reclamation; sizes = shape; first = first_phase; last = last_phase; nodes = nodes }) }
    {
        if !have_slots(&shape, &nodes) {
            return Err(SettingFault::Nodes);
        }
        if !(1 <= first_phase && first_phase <= last_phase && last_phase <= MOST_PHASES) {
            return Err(SettingFault::Phases);
        }
        Ok(Setting {
            reclamation,
            shape,
            first: first_phase,
            last: last_phase,
            nodes,
        })
    }

    /// A setting of optimistic access: a shape, the first and the last phase, and the counts of initial nodes of the kinds; numbers past
    /// the kinds aren't judged.
    ///
    /// # Errors
    /// `Nodes` if a kind has more initial nodes than slots, else `Phases` unless `1 <= first_phase <= last_phase <= 2^50`.
    pub fn new(
        shape: Shape,
        first_phase: u64,
        last_phase: u64,
        nodes: [u32; 4],
    ) -> Result<Setting, SettingFault>
        ensures { result ≡ setting_or_fault (record { reclamation = Reclamation.Optimistic; sizes = shape; first = first_phase; last = last_phase; nodes = nodes }) }
    {
        Setting::of(
            Reclamation::Optimistic,
            shape,
            first_phase,
            last_phase,
            nodes,
        )
    }

    /// What every setting keeps: a law for those who hold one. The body reads a field, which makes the invariant known.
    pub fn kept(&self)
        ensures { IsSetting self.now }
    {
        let _ = &self.shape;
    }

    /// The limits of every setting that the code makes: a law as `kept`.
    #[inline(always)]
    pub fn limits(&self)
        ensures { IsSmall self.now }
    {
        let _ = &self.shape;
    }

    /// The scheme by which nodes are recycled.
    pub fn reclamation(&self) -> Reclamation
        ensures { result ≡ self.now.reclamation }
    {
        self.reclamation
    }

    /// The shape of the row of words.
    pub fn shape(&self) -> &Shape
        ensures { result.now ≡ self.now.sizes }
    {
        &self.shape
    }

    /// The first phase.
    pub fn first_phase(&self) -> u64
        ensures same { result ≡ self.now.first }
        ensures few { result ≤ MOST_PHASES }
    {
        self.first
    }

    /// The last phase.
    pub fn last_phase(&self) -> u64
        ensures same { result ≡ self.now.last }
        ensures few { result ≤ MOST_PHASES }
    {
        self.last
    }

    /// How many initial nodes each kind has.
    pub fn nodes(&self) -> [u32; 4]
        ensures same { result ≡ self.now.nodes }
        ensures few { HaveSlots self.now.sizes result }
    {
        self.nodes
    }
}
