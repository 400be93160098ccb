//! The arena of a text that is run as it is, under epochs.

ghost use Rattle.std.specs.Prelude.{◌≡◌, ◌≤◌, [], vec_capacity};
ghost use Rattle.caller_parts.specs.declared.setting.Reclamation.TheVariants.{Epochs};
ghost use Rattle.core_ground.specs.Running.{bare_pair};
ghost use Rattle.word_runner.specs.table_rule.Rule.{callers_of};

use epoch_core::EpochEntry;
use std::marker::Model;
use word_runner::Arena;

/// A table of words on which the callers of one text meet. Threads share it by `&`: each step is one atomic access, and none waits for
/// another.
///
/// It is an arena of `word_runner` whose callers announce phases and run their text without checks and guards, with room for the
/// entries that its end shows.
#[derive(Drop)]
pub struct EpochArena {
    pub(crate) arena: Arena,
    pub(crate) list: Vec<EpochEntry>,
}

impl Model for EpochArena {
    ghost use Rattle.std.specs.Prelude.{◌≡◌, ◌≤◌, [], vec_capacity};
    ghost use Rattle.caller_parts.specs.declared.setting.Reclamation.TheVariants.{Epochs};
    ghost use Rattle.core_ground.specs.Running.{bare_pair};
    ghost use Rattle.word_runner.specs.Shown.{ArenaShown};
    ghost use Rattle.word_runner.specs.table_rule.Rule.{callers_of};

    ghost Value = { ArenaShown };

    ghost view = { λ a. a.arena };

    ghost invariant = { λ a. (a.list.items ≡ []) × (callers_of a.arena.fixed ≤ vec_capacity a.list)
        × (a.arena.fixed.setting.reclamation ≡ Epochs) × (a.arena.fixed.target ≡ bare_pair a.arena.fixed.target.source) };
}

impl EpochArena {
    pub(crate) fn over(arena: Arena, list: Vec<EpochEntry>) -> EpochArena
        requires empty { list.items ≡ [] }
        requires room { callers_of arena.fixed ≤ vec_capacity list }
        requires epochs { arena.fixed.setting.reclamation ≡ Epochs }
        requires bare { arena.fixed.target ≡ bare_pair arena.fixed.target.source }
        ensures { result ≡ arena }
    {
        EpochArena { arena, list }
    }

    /// The arena of `word_runner`.
    pub(crate) fn shared(&self) -> &Arena
        ensures { result.now ≡ self.now }
    {
        &self.arena
    }
}
