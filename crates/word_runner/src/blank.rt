//! A blank: a seat that has no entry yet, with the memory that its caller will need.

ghost use Rattle.std.specs.Prelude.{◌≡◌, ◌<◌, ◌≤◌, ◌+◌, ◌-◌, [], true, IfOk, IfErr, OnErr, MatchBool, vec_capacity};
ghost use Rattle.caller_steps.specs.Entries.{idle_entry};
ghost use Rattle.word_runner.specs.Shown.{CameFrom};
ghost use Rattle.word_runner.specs.table_rule.Parts.{halved};
ghost use Rattle.word_runner.specs.table_rule.Rule.{callers_of};
ghost use Rattle.word_runner.specs.table_rule.Plays.{Belonging, with_accesses, with_entry, with_found};
ghost use Rattle.word_runner.specs.table_rule.Seats.{Vacant};

use crate::arena::Arena;
use crate::caller::Caller;
use crate::ground::Place;
use core_entries::Entry;
use std::alloc::{AllocError, Global};
use std::marker::Model;

/// A seat at an arena that has no entry yet, beside the memory that its caller will need: the empty entry with room for its
/// replies, and a list with room for all entries of the arena. What makes one takes memory; what follows takes none.
#[derive(Drop)]
pub struct Blank {
    entry: Entry,
    list: Vec<Entry>,
    place: Place,
    found: u32,
}

impl Model for Blank {
    ghost use Rattle.std.specs.Prelude.{◌≡◌, [], vec_capacity};
    ghost use Rattle.word_runner.specs.table_rule.Seats.{Vacant};
    ghost use Rattle.word_runner.specs.Shown.{BlankShown};

    ghost Value = { BlankShown };

    ghost view = { λ b. record { table = b.place.table_id; fixed = b.place.me.0.fixed; room = b.entry.room; found = b.found; accesses = b.place.me.0.accesses; parts = b.place.me.0.parts } };

    ghost invariant = { λ b. Vacant b.place.me b.entry.core b.found (vec_capacity b.list) × (b.list.items ≡ []) };
}

/// Every place was found taken: as many callers entered as the setting has. The blank is handed back.
#[derive(Drop)]
pub struct NoPlace {
    pub callers: u32,
    pub blank: Blank,
}

impl Blank {
    /// How many places its tries found taken, from place 0 on.
    pub fn found(&self) -> u32
        ensures { result ≡ self.now.found }
    {
        self.found
    }

    pub(crate) fn over(place: Place, entry: Entry, list: Vec<Entry>) -> Blank
        requires vacant { Vacant place.me entry.core 0 (vec_capacity list) }
        requires empty { list.items ≡ [] }
        ensures { result ≡ record { table = place.table_id; fixed = place.me.0.fixed; room = entry.room; found = 0; accesses = place.me.0.accesses; parts = place.me.0.parts } }
    {
        Blank {
            entry,
            list,
            place,
            found: 0,
        }
    }

    /// Another blank of the same arena, with the same room. It loads the phase word through this blank's seat, of which the other
    /// gets half, and changes no word.
    ///
    /// # Errors
    /// Memory ran out; this blank is then as it was.
    pub fn split(&mut self, alloc: Global, arena: &Arena) -> Result<Blank, AllocError>
        requires came { CameFrom arena.now self.old.table self.old.fixed }
        ensures same { self.new ≡ record self.old { accesses = self.new.accesses; parts = self.new.parts } }
        ensures ok { IfOk result (λ b. b ≡ record { table = self.old.table; fixed = self.old.fixed; room = self.old.room; found = 0; accesses = 0; parts = halved self.old.parts }) }
        ensures seat { IfOk result (λ _. (self.new.accesses ≡ self.old.accesses + 1) × (self.new.parts ≡ halved self.old.parts)) }
        ensures err { OnErr result (self.new ≡ self.old) }
    {
        let room = self.entry.spare();
        let (entry, list) = supplies(alloc, arena.callers(), room)?;
        let place = arena.split(&mut self.place);
        Ok(Blank::over(place, entry, list))
    }

    /// Takes the first free place from `found` on, by one exchange from 0 to 1 a place, and becomes the caller with that number. A
    /// place that was taken stays taken, so those before `found` needn't be tried again. These are all the accesses that it makes
    /// through the seat. Takes no memory, and waits for nobody.
    ///
    /// # Errors
    /// `NoPlace` if all places were found taken.
    pub fn enter(self, arena: &Arena) -> Result<Caller, NoPlace>
        requires came { CameFrom arena.now self.table self.fixed }
        ensures ok { IfOk result (λ c. (c.table ≡ self.table) × (c.fixed ≡ self.fixed) × (c.entry ≡ record { core = idle_entry c.entry.core.number; room = self.room }) × (self.found ≤ c.entry.core.number) × (c.entry.core.number < callers_of self.fixed)) }
        ensures belongs { IfOk result (λ c. Belonging self.fixed c.entry.core) }
        ensures seat { IfOk result (λ c. (c.accesses ≡ self.accesses + (c.entry.core.number - self.found + 1)) × (c.parts ≡ self.parts)) }
        ensures err { IfErr result (λ n. (n.callers ≡ callers_of self.fixed) × (n.blank ≡ record self { found = callers_of self.fixed; accesses = self.accesses + (callers_of self.fixed - self.found) })) }
    {
        let Blank {
            mut entry,
            list,
            mut place,
            mut found,
        } = self;
        let callers = arena.callers();
        if find_place(arena, &mut place, &mut found, callers) {
            arena.kept();
            entry.renumber(found);
            Ok(Caller::over(place, entry, list))
        } else {
            let blank = Blank {
                entry,
                list,
                place,
                found,
            };
            Err(NoPlace { callers, blank })
        }
    }
}

/// The memory of a blank: the empty entry with room for so many replies, and an empty list with room for the entries of so many callers.
pub(crate) fn supplies(
    alloc: Global,
    callers: u32,
    room: u32,
) -> Result<(Entry, Vec<Entry>), AllocError>
    ensures entry { IfOk result (λ s. s.0 ≡ record { core = idle_entry 0; room = room }) }
    ensures list { IfOk result (λ s. (s.1.items ≡ []) × (callers ≤ vec_capacity s.1)) }
{
    let entry = Entry::new(alloc, 0, room)?;
    let list = Vec::with_capacity(alloc, callers as usize)?;
    Ok((entry, list))
}

// Tries one place after another, and says whether one was won. `found` is then its number.
fn find_place(arena: &Arena, place: &mut Place, found: &mut u32, callers: u32) -> bool
    requires table { (place.old.table_id ≡ arena.now.table) × (place.old.me.0.fixed ≡ arena.now.fixed) }
    requires empty { (place.old.me.1 ≡ []) × (place.old.me.0.entries ≡ []) × (place.old.me.0.found ≡ found.old) }
    requires live { place.old.me.0.live ≡ true }
    requires callers { (callers ≡ callers_of arena.now.fixed) × (found.old ≤ callers) }
    ensures table { place.new.table_id ≡ place.old.table_id }
    ensures found { (found.old ≤ found.new) × (found.new ≤ callers) }
    ensures won { MatchBool result ((found.new < callers) × (place.new.me ≡ (with_accesses (with_entry (with_found place.old.me.0 found.new) (idle_entry found.new)) (found.new - found.old + 1), []))) ((found.new ≡ callers) × (place.new.me ≡ (with_accesses (with_found place.old.me.0 found.new) (found.new - found.old), []))) }
{
    while *found < callers {
        if arena.try_place(place, *found) {
            return true;
        }
        *found += 1;
    }
    false
}
