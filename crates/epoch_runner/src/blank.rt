//! A blank: a seat that has no entry yet, with the memory that its caller will need.

ghost use Rattle.std.specs.Prelude.{◌≡◌, ◌<◌, ◌≤◌, ◌+◌, ◌-◌, IfOk, IfErr, OnErr};
ghost use Rattle.caller_steps.specs.Entries.{idle_entry};
ghost use Rattle.word_runner.specs.Shown.{CameFrom};
ghost use Rattle.word_runner.specs.table_rule.Parts.{halved};
ghost use Rattle.word_runner.specs.table_rule.Rule.{callers_of};
ghost use Rattle.word_runner.specs.table_rule.Plays.{Belonging};

use crate::arena::EpochArena;
use crate::caller::EpochCaller;
use std::alloc::{AllocError, Global};
use std::marker::Model;
use word_runner::{Blank, NoPlace};

/// A seat at an arena that has no entry yet, beside the memory that its caller will need: the empty entry with room for its
/// replies, and a list with room for all entries of the arena. What makes one takes memory; what follows takes none.
#[derive(Drop)]
pub struct EpochBlank {
    blank: Blank,
}

impl Model for EpochBlank {
    ghost use Rattle.word_runner.specs.Shown.{BlankShown};

    ghost Value = { BlankShown };

    ghost view = { λ b. b.blank };
}

/// Every place was found taken: as many callers entered as the arena has. The blank is handed back.
#[derive(Drop)]
pub struct EpochNoPlace {
    pub callers: u32,
    pub blank: EpochBlank,
}

impl EpochBlank {
    pub(crate) fn over(blank: Blank) -> EpochBlank
        ensures { result ≡ blank }
    {
        EpochBlank { blank }
    }

    /// How many places its tries found taken, from place 0 on.
    pub fn found(&self) -> u32
        ensures { result ≡ self.now.found }
    {
        self.blank.found()
    }

    /// Another blank of the same arena, with the same room. It loads the phase word through this blank's seat, of which the other
    /// gets half, and changes no word.
    ///
    /// # Errors
    /// Memory ran out; this blank is then as it was.
    pub fn split(&mut self, alloc: Global, arena: &EpochArena) -> Result<EpochBlank, AllocError>
        requires came { CameFrom arena.now self.old.table self.old.fixed }
        ensures same { self.new ≡ record self.old { accesses = self.new.accesses; parts = self.new.parts } }
        ensures ok { IfOk result (λ b. b ≡ record { table = self.old.table; fixed = self.old.fixed; room = self.old.room; found = 0; accesses = 0; parts = halved self.old.parts }) }
        ensures seat { IfOk result (λ _. (self.new.accesses ≡ self.old.accesses + 1) × (self.new.parts ≡ halved self.old.parts)) }
        ensures err { OnErr result (self.new ≡ self.old) }
    {
        match self.blank.split(alloc, arena.shared()) {
            Ok(blank) => Ok(EpochBlank { blank }),
            Err(error) => Err(error),
        }
    }

    /// Takes the first free place from `found` on, by one exchange from 0 to 1 a place, and becomes the caller with that number. A
    /// place that was taken stays taken, so those before `found` needn't be tried again. These are all the accesses that it makes
    /// through the seat. Takes no memory, and waits for nobody.
    ///
    /// # Errors
    /// `EpochNoPlace` if all places were found taken.
    pub fn enter(self, arena: &EpochArena) -> Result<EpochCaller, EpochNoPlace>
        requires came { CameFrom arena.now self.table self.fixed }
        ensures ok { IfOk result (λ c. (c.table ≡ self.table) × (c.fixed ≡ self.fixed) × (c.entry ≡ record { core = idle_entry c.entry.core.number; room = self.room }) × (self.found ≤ c.entry.core.number) × (c.entry.core.number < callers_of self.fixed)) }
        ensures belongs { IfOk result (λ c. Belonging self.fixed c.entry.core) }
        ensures seat { IfOk result (λ c. (c.accesses ≡ self.accesses + (c.entry.core.number - self.found + 1)) × (c.parts ≡ self.parts)) }
        ensures err { IfErr result (λ n. (n.callers ≡ callers_of self.fixed) × (n.blank ≡ record self { found = callers_of self.fixed; accesses = self.accesses + (callers_of self.fixed - self.found) })) }
    {
        let EpochBlank { blank } = self;
        match blank.enter(arena.shared()) {
            Ok(caller) => Ok(EpochCaller::over(caller)),
            Err(NoPlace { callers, blank }) => Err(EpochNoPlace {
                callers,
                blank: EpochBlank { blank },
            }),
        }
    }
}
