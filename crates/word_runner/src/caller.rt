//! A caller: an entry in memory and the seat that knows it.

ghost use Rattle.std.specs.Prelude.{◌≡◌, ℕ, ◌<◌, ◌≤◌, ◌+◌, ◌-◌, ◌∷◌, [], true, false, length, Some, vec_capacity};
ghost use Rattle.caller_steps.specs.After.{taken};
ghost use Rattle.caller_steps.specs.Entries.{is_idle};
ghost use Rattle.caller_parts.specs.Calls.{is_call};
ghost use Rattle.word_runner.specs.table_rule.Rule.{callers_of};
ghost use Rattle.word_runner.specs.table_rule.Plays.{Belonging, Apart};
ghost use Rattle.word_runner.specs.table_rule.Seats.{cores, Seated, IsFew};
ghost use Rattle.word_runner.specs.Shown.{CameFrom, Operated};
ghost use Rattle.word_runner.specs.Outcome.{Replies, IsLastAnswer, answer_of};

use crate::arena::{Arena, drive};
use crate::ground::Place;
use crate::rest::Rest;
use caller_steps::Reply;
use core_entries::Entry;
use std::marker::Model;

/// How a call of `operate` or `resume` ended: with the operation's number or with nothing; with no slot left after two sweeps of its
/// claim; with the last phase, which a sweep had loaded; or with the budget used up while the operation runs.
#[derive(Clone, Copy, PartialEq, Eq, Drop)]
pub enum Outcome {
    Replied(Option<u64>),
    Full,
    PhasesOver(u64),
    Spent,
}

/// A caller: its entry in memory, and the seat at the table that knows it. What it does between two accesses touches its own entry
/// alone.
#[derive(Drop)]
pub struct Caller {
    entry: Entry,
    list: Vec<Entry>,
    place: Place,
}

impl Model for Caller {
    ghost use Rattle.std.specs.Prelude.{◌≡◌, ◌<◌, ◌≤◌, [], vec_capacity};
    ghost use Rattle.word_runner.specs.table_rule.Rule.{callers_of};
    ghost use Rattle.word_runner.specs.table_rule.Seats.{Seated, IsFew};
    ghost use Rattle.word_runner.specs.Shown.{CallerShown};

    ghost Value = { CallerShown };

    ghost view = { λ c. record { table = c.place.table_id; fixed = c.place.me.0.fixed; entry = c.entry; accesses = c.place.me.0.accesses; parts = c.place.me.0.parts } };

    ghost invariant = { λ c. Seated c.place.me c.entry.core × (c.list.items ≡ []) × (callers_of c.place.me.0.fixed ≤ vec_capacity c.list) × IsFew (callers_of c.place.me.0.fixed) };
}

impl Caller {
    pub(crate) fn over(place: Place, entry: Entry, list: Vec<Entry>) -> Caller
        requires seated { Seated place.me entry.core }
        requires empty { list.items ≡ [] }
        requires room { IsFew (callers_of place.me.0.fixed) × (callers_of place.me.0.fixed ≤ vec_capacity list) }
        ensures { result ≡ record { table = place.table_id; fixed = place.me.0.fixed; entry = entry; accesses = place.me.0.accesses; parts = place.me.0.parts } }
    {
        Caller { entry, list, place }
    }

    /// Its number, from 0 on: that of the place that it took.
    pub fn number(&self) -> u32
        ensures { result ≡ self.now.entry.core.number }
    {
        self.entry.number()
    }

    /// Whether no operation runs.
    pub fn is_idle(&self) -> bool
        ensures { result ≡ is_idle self.now.entry.core.routine }
    {
        self.entry.is_idle()
    }

    /// For how many more replies it has room.
    pub fn spare(&self) -> u32
        ensures { result ≡ self.now.entry.room - length self.now.entry.core.replies }
    {
        self.entry.spare()
    }

    /// Comes to rest with its entry, also in mid-operation. Takes no memory.
    pub fn rest(self) -> Rest
        ensures is { result ≡ record { table = self.table; fixed = self.fixed; entries = self.entry ∷ []; accesses = self.accesses; parts = self.parts } }
        ensures apart { Apart (callers_of self.fixed) (cores result.entries) }
    {
        let Caller {
            entry,
            mut list,
            place,
        } = self;
        list.push_reserved(entry);
        Rest::over(place, list)
    }

    /// Takes a call of the operation `op`, by its number in the target, and makes its accesses one after another, until it has ended or
    /// `budget` of them were made. It makes no other, and gives no part of its seat away. The caller is idle and has
    /// room for the reply, and the words of `args` past the operation's count are 0. Takes no memory, and waits for nobody.
    pub fn operate(&mut self, arena: &Arena, op: u8, args: [u64; 4], budget: u64) -> Outcome
        requires came { CameFrom arena.now self.old.table self.old.fixed }
        requires idle { is_idle self.old.entry.core.routine ≡ true }
        requires spare { length self.old.entry.core.replies < self.old.entry.room }
        requires call { is_call self.old.fixed.target.target (record { op = op; args = args }) ≡ true }
        requires budget { 0 < budget }
        ensures same { (self.new.table ≡ self.old.table) × (self.new.fixed ≡ self.old.fixed) × (self.new.entry.room ≡ self.old.entry.room) }
        ensures steps { (accesses : ℕ) × (self.new.accesses ≡ self.old.accesses + accesses) × Operated self.old.fixed (taken self.old.fixed.setting.reclamation (record { op = op; args = args }) self.old.entry.core) budget self.new.entry.core accesses }
        ensures seat { self.new.parts ≡ self.old.parts }
        ensures belongs { Belonging self.old.fixed self.new.entry.core }
        ensures outcome { Replies self.old.entry.core (record { op = op; args = args }) (answer_of result) self.new.entry.core }
    {
        arena.begin(&mut self.entry, op, args);
        drive(arena, &mut self.place, &mut self.entry, budget);
        answer(&self.entry)
    }

    /// Goes on with the call that runs, by at most `budget` further accesses. It makes no other, and gives no part of its seat away.
    pub fn resume(&mut self, arena: &Arena, budget: u64) -> Outcome
        requires came { CameFrom arena.now self.old.table self.old.fixed }
        requires busy { is_idle self.old.entry.core.routine ≡ false }
        requires budget { 0 < budget }
        ensures same { (self.new.table ≡ self.old.table) × (self.new.fixed ≡ self.old.fixed) × (self.new.entry.room ≡ self.old.entry.room) }
        ensures steps { (accesses : ℕ) × (self.new.accesses ≡ self.old.accesses + accesses) × Operated self.old.fixed self.old.entry.core budget self.new.entry.core accesses }
        ensures seat { self.new.parts ≡ self.old.parts }
        ensures belongs { Belonging self.old.fixed self.new.entry.core }
        ensures outcome { Replies self.old.entry.core self.old.entry.core.running.call (answer_of result) self.new.entry.core }
    {
        drive(arena, &mut self.place, &mut self.entry, budget);
        answer(&self.entry)
    }
}

fn outcome_of(reply: Reply) -> Outcome
    ensures { answer_of result ≡ Some reply }
{
    match reply {
        Reply::Number(n) => Outcome::Replied(Some(n)),
        Reply::Nothing => Outcome::Replied(None),
        Reply::Full => Outcome::Full,
        Reply::Phases(p) => Outcome::PhasesOver(p),
    }
}

/// The last reply, if the entry is idle.
fn answer(entry: &Entry) -> Outcome
    ensures { IsLastAnswer entry.now.core (answer_of result) }
{
    if !entry.is_idle() {
        return Outcome::Spent;
    }
    match entry.replies().last() {
        Some(reply) => outcome_of(*reply),
        None => Outcome::Replied(None),
    }
}
