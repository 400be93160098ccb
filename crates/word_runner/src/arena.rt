//! The arena: a table of words, with the target and the setting of the callers that meet there.

ghost use Rattle.std.specs.Prelude.{◌≡◌, ◌<◌, ◌≤◌, ◌+◌, [], true, MatchBool, length};
ghost use Rattle.caller_steps.specs.Entries.{idle_entry, is_idle};
ghost use Rattle.caller_parts.specs.Calls.{is_call};
ghost use Rattle.caller_steps.specs.After.{taken};
ghost use Rattle.oa_words.specs.Words.{word_count};
ghost use Rattle.word_runner.specs.table_rule.Seen.{IsGround};
ghost use Rattle.word_runner.specs.table_rule.Rule.{callers_of};
ghost use Rattle.word_runner.specs.table_rule.Plays.{CanGo, Belonging, NewcomersBelong, parted, cut_off, joined, Looked, with_accesses, with_entry, with_found};
ghost use Rattle.word_runner.specs.table_rule.Drives.{Went, Ran};
ghost use Rattle.word_runner.specs.table_rule.Closing.{Shut};

use crate::access::access;
use crate::ground::{Cut, Glue, Ground, Hand, Looks, Place, Tries, Words};
use core_entries::Entry;
use std::marker::{Brand, Model};

/// A table of words on which the callers of one target meet. Threads share it by `&`: each step is one atomic access, and none
/// waits for another.
#[derive(Drop)]
pub struct Arena {
    table: Words,
    ground: Ground,
}

impl Model for Arena {
    ghost use Rattle.std.specs.Prelude.{◌≡◌};
    ghost use Rattle.oa_words.specs.Words.{word_count};
    ghost use Rattle.word_runner.specs.table_rule.Seen.{IsGround};
    ghost use Rattle.word_runner.specs.Shown.{ArenaShown};

    ghost Value = { ArenaShown };

    ghost view = { λ a. record { table = a.table.shared.table_id; fixed = a.ground } };

    ghost invariant = { λ a. (a.table.shared.key ≡ a.ground) × (a.table.shared.table_id.words ≡ word_count a.ground.setting.sizes) × (a.table.shared.table_id.slots ≡ 0) × IsGround a.ground };
}

impl Arena {
    pub(crate) fn over(table: Words, ground: Ground) -> Arena
        requires key { table.shared.key ≡ ground }
        requires sizes { (table.shared.table_id.words ≡ word_count ground.setting.sizes) × (table.shared.table_id.slots ≡ 0) }
        requires good { IsGround ground }
        ensures { result ≡ record { table = table.shared.table_id; fixed = ground } }
    {
        Arena { table, ground }
    }

    pub(crate) fn shut(self, seat: Place) -> u64
        requires { seat.table_id ≡ self.table }
        ensures { Shut self.fixed seat.me.0 result }
    {
        let Arena { table, ground } = self;
        drop(ground);
        let closed = table.close_with(seat);
        let phase = closed.word(0);
        closed.free();
        phase
    }

    fn step<H: Hand>(&self, seat: &mut Place, entry: &mut Entry)
        requires hand { H.entry ≡ entry.old.core }
        requires table { seat.old.table_id ≡ self.now.table }
        requires can { CanGo self.now.fixed seat.old.me entry.old.core }
        ensures table { seat.new.table_id ≡ seat.old.table_id }
        ensures went { Went self.now.fixed seat.old.me entry.old seat.new.me entry.new }
    {
        let Ground { target, setting } = &self.ground;
        if let Some(wanted) = entry.pending_on(target, setting) {
            let word = access::<H>(&self.table, seat, wanted);
            entry.accept_on(target, setting, word);
        }
    }

    /// How many callers its setting has, 1 to 8.
    pub(crate) fn callers(&self) -> u32
        ensures number { result ≡ callers_of self.now.fixed }
        ensures range { (0 < result) × (result ≤ 8) }
    {
        self.ground.setting.kept();
        self.ground.setting.shape().callers()
    }

    /// Its target is one that callers may run, and its setting fits the target: so each caller's empty entry belongs. The arena's invariant
    /// says so, and reading a field brings it into the proof.
    pub(crate) fn kept(&self)
        ensures ground { IsGround self.now.fixed }
        ensures idle { NewcomersBelong self.now.fixed }
    {
        let _ = &self.ground;
    }

    pub(crate) fn split(&self, seat: &mut Place) -> Place
        requires table { seat.old.table_id ≡ self.now.table }
        requires live { seat.old.me.0.live ≡ true }
        ensures kept { (seat.new.table_id ≡ seat.old.table_id) × (seat.new.me ≡ (parted seat.old.me.0, seat.old.me.1)) }
        ensures given { (result.table_id ≡ seat.old.table_id) × (result.me ≡ (cut_off seat.old.me.0, [])) }
    {
        self.table.shared.split_seat::<Cut>(seat)
    }

    pub(crate) fn join(&self, seat: &mut Place, other: Place)
        requires table { (seat.old.table_id ≡ self.now.table) × (other.table_id ≡ self.now.table) × (other.me.1 ≡ []) }
        requires live { seat.old.me.0.live ≡ true }
        ensures { (seat.new.table_id ≡ seat.old.table_id) × (seat.new.me ≡ (joined seat.old.me.0 other.me.0, seat.old.me.1)) }
    {
        self.table.shared.join_seat::<Glue>(seat, other);
    }

    /// Loads the phase word, and sees that the seat's entries have different numbers.
    pub(crate) fn look(&self, seat: &mut Place)
        requires table { (seat.old.table_id ≡ self.now.table) × (seat.old.me.0.fixed ≡ self.now.fixed) }
        requires live { seat.old.me.0.live ≡ true }
        ensures { (seat.new.table_id ≡ seat.old.table_id) × Looked seat.old.me seat.new.me }
    {
        self.table.shared.load::<Looks>(seat, 0);
    }

    /// Tries the place that is next after those found taken.
    pub(crate) fn try_place(&self, seat: &mut Place, found: u32) -> bool
        requires table { (seat.old.table_id ≡ self.now.table) × (seat.old.me.0.fixed ≡ self.now.fixed) }
        requires empty { (seat.old.me.1 ≡ []) × (seat.old.me.0.entries ≡ []) }
        requires live { seat.old.me.0.live ≡ true }
        requires found { (seat.old.me.0.found ≡ found) × (found < callers_of self.now.fixed) }
        ensures table { seat.new.table_id ≡ seat.old.table_id }
        ensures tried { MatchBool result (seat.new.me ≡ (with_accesses (with_entry seat.old.me.0 (idle_entry found)) 1, [])) (seat.new.me ≡ (with_accesses (with_found seat.old.me.0 (found + 1)) 1, [])) }
    {
        self.table
            .shared
            .compare_exchange::<Tries>(seat, 1 + found as usize, 0, 1)
            == 0
    }

    /// The entry takes a call.
    pub(crate) fn begin(&self, entry: &mut Entry, op: u8, args: [u64; 4])
        requires belongs { Belonging self.now.fixed entry.old.core }
        requires idle { is_idle entry.old.core.routine ≡ true }
        requires spare { length entry.old.core.replies < entry.old.room }
        requires call { is_call self.now.fixed.target.target (record { op = op; args = args }) ≡ true }
        ensures taken { entry.new ≡ record entry.old { core = taken self.now.fixed.setting.reclamation (record { op = op; args = args }) entry.old.core } }
        ensures belongs { Belonging self.now.fixed entry.new.core }
    {
        let by = self.ground.setting.reclamation();
        entry.begin_by(by, self.ground.target.runs(), op, args);
    }

    /// One step of the entry.
    pub(crate) fn advance(&self, seat: &mut Place, entry: &mut Entry)
        requires table { seat.old.table_id ≡ self.now.table }
        requires can { CanGo self.now.fixed seat.old.me entry.old.core }
        ensures table { seat.new.table_id ≡ seat.old.table_id }
        ensures went { Went self.now.fixed seat.old.me entry.old seat.new.me entry.new }
    {
        self.step::<Brand>(seat, entry)
    }
}

/// Steps the entry until its call has ended, at most `budget` times.
pub(crate) fn drive(arena: &Arena, seat: &mut Place, entry: &mut Entry, budget: u64)
    requires table { seat.old.table_id ≡ arena.now.table }
    requires can { CanGo arena.now.fixed seat.old.me entry.old.core }
    requires budget { 0 < budget }
    ensures table { seat.new.table_id ≡ seat.old.table_id }
    ensures ran { Ran arena.now.fixed seat.old.me entry.old budget seat.new.me entry.new }
{
    arena.advance(seat, entry);
    let mut left = budget - 1;
    while left > 0 && !entry.is_idle() {
        arena.advance(seat, entry);
        left -= 1;
    }
}
