//! A caller's entry under epochs.

ghost use Rattle.std.specs.Prelude.{◌≡◌, ◌≢◌, ◌-◌, ◌<◌, ◌≤◌, None, IfOk, length, map, true, is_some, not};
ghost use Rattle.target_code.specs.Bare.{bare};
ghost use Rattle.caller_steps.specs.Entries.{idle_entry, is_idle};
ghost use Rattle.caller_parts.specs.Pairing.{reply_of};
ghost use Rattle.caller_parts.specs.declared.setting.Reclamation.TheVariants.{Epochs};
ghost use Rattle.caller_parts.specs.Calls.{is_call};
ghost use Rattle.caller_parts.specs.Settings.{IsSetting};
ghost use Rattle.caller_parts.specs.declared.limits.TheConstants.{MOST_PHASES};
ghost use Rattle.caller_steps.specs.Asking.{located_option};
ghost use Rattle.caller_steps.specs.Lawful.{MayBeTold};
ghost use Rattle.caller_steps.specs.Wants.{wants};
ghost use Rattle.caller_steps.specs.After.{after, taken};
ghost use Rattle.core_ground.specs.Running.{bare_pair};
ghost use Rattle.core_entries.specs.Callers.{BelongsTo, BelongsToAll, BelongsToSome, StaysWithAll, IsInRow};
ghost use Rattle.epoch_core.specs.Settings.{entry_setting};

use crate::setting::setting_on;
use caller_parts::Reclamation;
use core_entries::Entry;
use core_ground::Runs;
use norm_check::Normal;
use norm_lang::SourceReply;
use oa_words::shape::Shape;
use phase_pools::access::Access;
use std::alloc::{AllocError, Global};
use std::marker::Model;

/// A caller of a text that is run as it is, under epochs, with room for its replies. It announces the phase in which its operation began,
/// and what was retired since then isn't recycled while it runs (Fraser, "Practical Lock-Freedom", 2004).
///
/// It runs step by step: `pending` is the one access that it makes next, and `accept` takes the word that this access found.
#[derive(Drop)]
pub struct EpochEntry {
    entry: Entry,
}

impl Model for EpochEntry {
    ghost use Rattle.caller_steps.specs.Entries.{RoomyEntry};

    ghost Value = { RoomyEntry };

    ghost view = { λ e. e.entry };
}

impl EpochEntry {
    /// An idle entry of the caller with this number, counted from 0, with room for so many replies. It belongs to every text in normal
    /// form and fitting setting with more callers than its number.
    ///
    /// # Errors
    /// Memory ran out.
    pub fn new(alloc: Global, number: u32, room: u32) -> Result<EpochEntry, AllocError>
        ensures made { IfOk result (λ e. e ≡ record { core = idle_entry number; room = room }) }
        ensures belongs { BelongsToAll (idle_entry number) }
    {
        match Entry::new(alloc, number, room) {
            Ok(entry) => Ok(EpochEntry { entry }),
            Err(error) => Err(error),
        }
    }

    /// The entry of a caller at rest.
    pub fn of(entry: Entry) -> EpochEntry
        ensures { result ≡ entry }
    {
        EpochEntry { entry }
    }

    /// Another number for an entry that is as `new` made it. Takes no memory.
    pub fn renumber(&mut self, number: u32)
        requires fresh { self.old.core ≡ idle_entry self.old.core.number }
        ensures numbered { self.new ≡ record self.old { core = idle_entry number } }
        ensures belongs { BelongsToAll (idle_entry number) }
    {
        self.entry.renumber(number);
    }

    /// Takes a call of the operation `op`, by its number in the text, with its arguments. The entry is idle and has room for
    /// the reply, and the words of `args` past the operation's count are 0.
    pub fn begin(&mut self, normal: &Normal, op: u8, args: [u64; 4])
        requires belongs { BelongsToSome (bare_pair normal.now) self.old.core }
        requires idle { is_idle self.old.core.routine ≡ true }
        requires spare { length self.old.core.replies < self.old.room }
        requires call { is_call (bare normal.now) (record { op = op; args = args }) ≡ true }
        ensures taken { self.new ≡ record self.old { core = taken Epochs (record { op = op; args = args }) self.old.core } }
        ensures belongs { StaysWithAll Epochs (bare_pair normal.now) self.old.core self.new.core }
    {
        self.entry
            .begin_by(Reclamation::Epochs, Runs::Bare(normal), op, args);
    }

    /// The one access that the entry makes next, to a word of the row; none exactly if it is idle.
    pub fn pending(&self, normal: &Normal, shape: &Shape, last_phase: u64) -> Option<Access>
        requires setting { IsSetting (entry_setting normal.now shape.now last_phase) }
        requires last { last_phase ≤ MOST_PHASES }
        requires belongs { BelongsTo (bare_pair normal.now) (entry_setting normal.now shape.now last_phase) self.now.core }
        ensures wanted { result ≡ located_option shape.now (wants (bare normal.now) self.now.core) }
        ensures idle { is_some result ≡ not (is_idle self.now.core.routine) }
        ensures row { IsInRow (entry_setting normal.now shape.now last_phase) result }
    {
        let setting = setting_on(normal, shape, last_phase);
        self.entry.pending_by(Runs::Bare(normal), &setting)
    }

    /// The entry after its wanted access found a word, which is lawful where that access stood. What a store found is no
    /// matter.
    pub fn accept(&mut self, normal: &Normal, shape: &Shape, last_phase: u64, word: u64)
        requires setting { IsSetting (entry_setting normal.now shape.now last_phase) }
        requires last { last_phase ≤ MOST_PHASES }
        requires belongs { BelongsTo (bare_pair normal.now) (entry_setting normal.now shape.now last_phase) self.old.core }
        requires wanted { wants (bare normal.now) self.old.core ≢ None }
        requires lawful { MayBeTold (bare normal.now) (entry_setting normal.now shape.now last_phase) (wants (bare normal.now) self.old.core) word }
        ensures after { self.new ≡ record self.old { core = after (bare normal.now) (entry_setting normal.now shape.now last_phase) self.old.core word } }
        ensures belongs { BelongsTo (bare_pair normal.now) (entry_setting normal.now shape.now last_phase) self.new.core }
    {
        let setting = setting_on(normal, shape, last_phase);
        self.entry.accept_by(Runs::Bare(normal), &setting, word);
    }

    /// The caller's number, from 0 on.
    pub fn number(&self) -> u32
        ensures { result ≡ self.now.core.number }
    {
        self.entry.number()
    }

    /// Whether no call runs.
    pub fn is_idle(&self) -> bool
        ensures { result ≡ is_idle self.now.core.routine }
    {
        self.entry.is_idle()
    }

    /// The replies in order.
    pub fn replies(&self) -> &[SourceReply]
        ensures { result.now ≡ map reply_of self.now.core.replies }
    {
        self.entry.replies()
    }

    /// For how many more replies there is room.
    pub fn spare(&self) -> u32
        ensures { result ≡ self.now.room - length self.now.core.replies }
    {
        self.entry.spare()
    }

    /// How often it began again after a claim for which it had swept; the count stays at 2^64 - 1.
    pub fn restarts(&self) -> u64
        ensures { result ≡ self.now.core.counts.restarts }
    {
        self.entry.restarts()
    }

    /// How many slots it has claimed; the count stays at 2^64 - 1.
    pub fn claims(&self) -> u64
        ensures { result ≡ self.now.core.counts.claims }
    {
        self.entry.claims()
    }
}
