//! Callers at rest: a seat with the entries that it knows.

ghost use Rattle.std.specs.Prelude.{◌≡◌, ◌≤◌, ◌+◌, ◌++◌, length, vec_capacity};
ghost use Rattle.word_runner.specs.Shown.{CameFrom};
ghost use Rattle.word_runner.specs.table_rule.Rule.{callers_of};
ghost use Rattle.word_runner.specs.table_rule.Plays.{Apart};
ghost use Rattle.word_runner.specs.table_rule.Seats.{cores, Resting};

use crate::arena::Arena;
use crate::ground::Place;
use core_entries::Entry;
use std::marker::Model;

/// Callers at rest: their entries, and one seat that knows them all.
#[derive(Drop)]
pub struct Rest {
    list: Vec<Entry>,
    place: Place,
}

impl Model for Rest {
    ghost use Rattle.std.specs.Prelude.{vec_capacity};
    ghost use Rattle.word_runner.specs.table_rule.Seats.{Resting};
    ghost use Rattle.word_runner.specs.Shown.{RestShown};

    ghost Value = { RestShown };

    ghost view = { λ r. record { table = r.place.table_id; fixed = r.place.me.0.fixed; entries = r.list.items; accesses = r.place.me.0.accesses; parts = r.place.me.0.parts } };

    ghost invariant = { λ r. Resting r.place.me r.list.items (vec_capacity r.list) };
}

impl Rest {
    pub(crate) fn over(place: Place, list: Vec<Entry>) -> Rest
        requires { Resting place.me list.items (vec_capacity list) }
        ensures { result ≡ record { table = place.table_id; fixed = place.me.0.fixed; entries = list.items; accesses = place.me.0.accesses; parts = place.me.0.parts } }
    {
        Rest { list, place }
    }

    pub(crate) fn parts(self) -> (Place, Vec<Entry>)
        ensures { (result.0.table_id ≡ self.table) × (result.0.me.0.fixed ≡ self.fixed) × (result.1.items ≡ self.entries) × Resting result.0.me result.1.items (vec_capacity result.1) }
    {
        let Rest { list, place } = self;
        (place, list)
    }

    /// How many entries it holds.
    pub fn count(&self) -> u32
        ensures { result ≡ length self.now.entries }
    {
        self.list.len() as u32
    }

    /// Both rests as one. Joining the seats loads the phase word, and so does a look after that, by which the one seat is told that its
    /// entries have different numbers. Takes no memory, and waits for nobody.
    pub fn merge(self, other: Rest, arena: &Arena) -> Rest
        requires mine { CameFrom arena.now self.table self.fixed }
        requires theirs { CameFrom arena.now other.table other.fixed }
        ensures is { result ≡ record { table = self.table; fixed = self.fixed; entries = self.entries ++ other.entries; accesses = self.accesses + other.accesses + 2; parts = self.parts ++ other.parts } }
        ensures apart { Apart (callers_of self.fixed) (cores result.entries) }
    {
        let Rest {
            mut list,
            mut place,
        } = self;
        let Rest {
            list: others,
            place: from,
        } = other;
        arena.join(&mut place, from);
        arena.look(&mut place);
        pour(&mut list, others);
        Rest { list, place }
    }
}

/// Moves the others to the end. There is room.
fn pour(list: &mut Vec<Entry>, mut others: Vec<Entry>)
    requires { length list.old.items + length others.items ≤ vec_capacity list.old }
    ensures items { list.new.items ≡ list.old.items ++ others.items }
    ensures room { vec_capacity list.old ≤ vec_capacity list.new }
{
    if list.append(&mut others).is_err() {
        unreachable!()
    }
}
