//! Callers at rest.

ghost use Rattle.std.specs.Prelude.{◌≡◌, ◌+◌, ◌++◌, length};
ghost use Rattle.word_runner.specs.Shown.{CameFrom};
ghost use Rattle.word_runner.specs.table_rule.Rule.{callers_of};
ghost use Rattle.word_runner.specs.table_rule.Plays.{Apart};
ghost use Rattle.word_runner.specs.table_rule.Seats.{cores};

use crate::arena::EpochArena;
use std::marker::Model;
use word_runner::Rest;

/// Callers at rest: their entries, and one seat that knows them all.
#[derive(Drop)]
pub struct EpochRest {
    pub(crate) rest: Rest,
}

impl Model for EpochRest {
    ghost use Rattle.word_runner.specs.Shown.{RestShown};

    ghost Value = { RestShown };

    ghost view = { λ r. r.rest };
}

impl EpochRest {
    pub(crate) fn over(rest: Rest) -> EpochRest
        ensures { result ≡ rest }
    {
        EpochRest { rest }
    }

    /// How many entries it holds.
    pub fn count(&self) -> u32
        ensures { result ≡ length self.now.entries }
    {
        self.rest.count()
    }

    /// Both rests as one. Joining the seats loads the phase word, and so does a look after that, by which the one seat is told that its
    /// entries have different numbers. Takes no memory, and waits for nobody.
    pub fn merge(self, other: EpochRest, arena: &EpochArena) -> EpochRest
        requires mine { CameFrom arena.now self.table self.fixed }
        requires theirs { CameFrom arena.now other.table other.fixed }
        ensures is { result ≡ record { table = self.table; fixed = self.fixed; entries = self.entries ++ other.entries; accesses = self.accesses + other.accesses + 2; parts = self.parts ++ other.parts } }
        ensures apart { Apart (callers_of self.fixed) (cores result.entries) }
    {
        let EpochRest { rest } = self;
        let EpochRest { rest: others } = other;
        EpochRest::over(rest.merge(others, arena.shared()))
    }
}
