//! Marks on names.

ghost use Rattle.std.specs.Prelude.{ℕ, ◌≤◌};
ghost use Rattle.proper_judge.specs.Numbers.{numbering};

use crate::numbers::Numbers;
use std::alloc::{AllocError, Global};

/// Marks on names, which are taken from all names at once: a name is marked if its number is that of the round.
#[derive(Drop)]
pub(crate) struct Marks {
    numbers: Numbers,
    round: u64,
    ghost below: { (name : ℕ) → numbering numbers name ≤ round },
}

impl Marks {
    ghost use Rattle.std.specs.Prelude.{◌≡◌, false, OnOk};
    ghost use Rattle.proper_judge.specs.Marks.{is_marked, marked};

    /// No name is marked.
    pub(crate) fn none(alloc: Global) -> Marks
        ensures { (name : ℕ) → is_marked result name ≡ false }
    {
        Marks {
            numbers: Numbers::none(alloc),
            round: 1,
        }
    }

    /// Takes the mark from each name.
    pub(crate) fn clear(&mut self, alloc: Global)
        ensures { (name : ℕ) → is_marked self.new name ≡ false }
    {
        match self.round.checked_add(1) {
            Some(round) => self.round = round,
            None => *self = Marks::none(alloc),
        }
    }

    /// Whether a name is marked.
    pub(crate) fn has(&self, name: u64) -> bool
        ensures { result ≡ is_marked self.now name }
    {
        self.numbers.get(name) == self.round
    }

    /// Marks a name.
    pub(crate) fn mark(&mut self, name: u64) -> Result<(), AllocError>
        ensures { OnOk result ((other : ℕ) → is_marked self.new other ≡ marked (is_marked self.old) name other) }
    {
        self.numbers.set(name, self.round)
    }
}
