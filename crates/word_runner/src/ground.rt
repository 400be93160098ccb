//! What a table is told once, what a seat knows, and what each kind of step tells it.

use atomic_table::{Join, Play, Seat, Split, Table, TableRule};
use caller_steps::Setting;
use core_ground::LoadedTarget;
use std::alloc::Global;
use std::marker::{Brand, Model, PhantomData};

/// The target, and a setting that fits it.
#[derive(Drop)]
pub(crate) struct Ground {
    pub(crate) target: LoadedTarget,
    pub(crate) setting: Setting,
}

impl Model for Ground {
    ghost use Rattle.word_runner.specs.table_rule.Seen.{Fixed};

    ghost Value = { Fixed };

    ghost view = { λ g. record { target = g.target; setting = g.setting } };
}

/// What a seat knows. No value of it is made.
pub(crate) struct Sight {
    nothing: (),
}

impl Model for Sight {
    ghost use Rattle.word_runner.specs.table_rule.Seen.{SeatView, nobody};

    ghost Value = { SeatView };

    ghost view = { λ _. nobody };
}

/// The rule: words and views show a reachable state of the core.
pub(crate) struct Shown;

impl TableRule<u8, Sight, Ground> for Shown {
    ghost use Rattle.word_runner.specs.table_rule.Seen.{newcomer};
    ghost use Rattle.word_runner.specs.table_rule.Rule.{Holds};

    ghost holds = { Holds };

    ghost first = { newcomer };
}

/// A table without slots: callers meet on words alone.
pub(crate) type Words = Table<u8, Sight, Ground, Shown, Global>;

pub(crate) type Place = Seat<u8, Sight>;

/// The entry that steps next, for the proof alone. A call at `Brand` picks it.
pub(crate) trait Hand {
    ghost use Rattle.caller_steps.specs.Entries.{Entry};

    ghost entry: { Entry };
}

impl Hand for Brand {
    ghost use Rattle.caller_steps.specs.Entries.{idle_entry};

    ghost entry = { idle_entry 0 };
}

/// A load, an exchange or a raise by a caller.
pub(crate) struct Makes<H>(PhantomData<H>);

impl<H: Hand> Play<u8, Sight> for Makes<H> {
    ghost use Rattle.word_runner.specs.table_rule.Plays.{Made};

    ghost then = { λ _ me n w. Made H.entry me n w };
}

/// A store: the word that it found isn't told.
pub(crate) struct Puts<H>(PhantomData<H>);

impl<H: Hand> Play<u8, Sight> for Puts<H> {
    ghost use Rattle.word_runner.specs.table_rule.Plays.{Made};

    ghost then = { λ _ me n w. Made H.entry me 0 w };
}

/// An exchange of a place word.
pub(crate) struct Tries;

impl Play<u8, Sight> for Tries {
    ghost use Rattle.word_runner.specs.table_rule.Plays.{Tried};

    ghost then = { Tried };
}

/// A load of the phase word, after seats were joined.
pub(crate) struct Looks;

impl Play<u8, Sight> for Looks {
    ghost use Rattle.word_runner.specs.table_rule.Plays.{Looked};

    ghost then = { λ _ me _ w. Looked me w };
}

pub(crate) struct Cut;

impl Split<Sight> for Cut {
    ghost use Rattle.word_runner.specs.table_rule.Plays.{parted, cut_off};

    ghost left = { parted };

    ghost right = { cut_off };
}

pub(crate) struct Glue;

impl Join<Sight> for Glue {
    ghost use Rattle.word_runner.specs.table_rule.Seen.{nobody};
    ghost use Rattle.word_runner.specs.table_rule.Plays.{joined};

    ghost both = { joined };

    ghost spent = { nobody };
}
