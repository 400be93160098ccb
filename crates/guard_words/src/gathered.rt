//! The slots that a sweep found guarded.

ghost use Rattle.std.specs.Prelude.{◌≡◌, ◌<◌, [], length};
ghost use Rattle.guard_words.specs.Guards.{with_slot, has_slot};

use std::marker::Model;

/// A set of at most 64 slots: as many as 8 callers have hazard words. It is seen as the list of what was added.
#[derive(Drop)]
pub struct Gathered {
    slots: [u32; 64],
    count: usize,
}

impl Model for Gathered {
    ghost use Rattle.std.specs.Prelude.{List, ℕ, take, ◌≤◌};

    ghost Value = { List ℕ };

    ghost view = { λ g. take g.count g.slots };

    ghost invariant = { λ g. g.count ≤ 64 };
}

impl Gathered {
    /// No slot.
    pub fn empty() -> Gathered
        ensures { result ≡ [] }
    {
        Gathered {
            slots: [0; 64],
            count: 0,
        }
    }

    /// Adds a slot; 0, which is no slot, changes nothing. Fewer than 64 were added before.
    pub fn add(&mut self, slot: u32)
        requires { length self.old < 64 }
        ensures { self.new ≡ with_slot self.old slot }
    {
        if slot != 0 {
            self.slots[self.count] = slot;
            self.count += 1;
        }
    }

    /// Whether the slot was added.
    pub fn names(&self, slot: u32) -> bool
        ensures { result ≡ has_slot self.now slot }
    {
        self.slots[..self.count].iter().any(|s| *s == slot)
    }
}
