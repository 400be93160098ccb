//! Making an arena, and closing it.

ghost use Rattle.std.specs.Prelude.{◌≡◌, ◌≤◌, ◌+◌, ◌++◌, [], ◌∷◌, length, vec_capacity, IfOk};
ghost use Rattle.target_code.specs.Bare.{bare};
ghost use Rattle.caller_parts.specs.declared.setting.Reclamation.TheVariants.{Epochs};
ghost use Rattle.caller_parts.specs.Settings.{Fits, IsSetting};
ghost use Rattle.caller_parts.specs.declared.limits.TheConstants.{MOST_PHASES};
ghost use Rattle.core_ground.specs.Running.{bare_pair};
ghost use Rattle.word_runner.specs.Shown.{CameFrom};
ghost use Rattle.word_runner.specs.table_rule.Rule.{callers_of};
ghost use Rattle.word_runner.specs.table_rule.Closing.{IsClosed};
ghost use Rattle.epoch_core.specs.Settings.{epoch_setting};

use crate::arena::EpochArena;
use crate::blank::EpochBlank;
use crate::rest::EpochRest;
use core_entries::Entry;
use epoch_core::EpochEntry;
use epoch_core::setting::setting_of;
use norm_check::Normal;
use norm_lang::list::Listed;
use oa_words::shape::Shape;
use std::alloc::{AllocError, Global};
use word_runner::{Arena, Blank};

/// Entries of callers.
pub type EpochEntryList = Listed<EpochEntry>;

/// The phase word and the entries of all callers, in the order of their numbers: those of one state.
#[derive(Drop)]
pub struct EpochFinal {
    pub phase: u64,
    pub entries: EpochEntryList,
}

/// The arena and its first blank, with room for the entries of so many callers.
fn with_room(
    alloc: Global,
    callers: u32,
    arena: Arena,
    blank: Blank,
) -> Result<(EpochArena, EpochBlank), AllocError>
    requires callers { callers ≡ callers_of arena.fixed }
    requires epochs { arena.fixed.setting.reclamation ≡ Epochs }
    requires bare { arena.fixed.target ≡ bare_pair arena.fixed.target.source }
    ensures { IfOk result (λ p. (p.0 ≡ arena) × (p.1 ≡ blank)) }
{
    match Vec::with_capacity(alloc, callers as usize) {
        Ok(list) => Ok((EpochArena::over(arena, list), EpochBlank::over(blank))),
        Err(error) => {
            drop(blank);
            drop(arena);
            Err(error)
        }
    }
}

/// The entries one by one, at the end of the list. There is room.
#[tactic(auto, using(crate::proofs::Pouring::poured))]
fn pour(list: &mut Vec<EpochEntry>, mut entries: Vec<Entry>)
    requires { length list.old.items + length entries.items ≤ vec_capacity list.old }
    ensures { list.new.items ≡ list.old.items ++ entries.items }
{
    'entries: while !entries.is_empty() {
        list.push_reserved(EpochEntry::of(entries.remove(0)));
    }
    drop(entries);
}

impl EpochArena {
    /// A table for the callers of a text that is run as it is, under epochs, and its first blank, with room for `room` replies. The shape,
    /// with the text's counts of fields and roots and slots for its initial nodes, and the phases, from 1 to 2^50, are those of a setting
    /// that fits the text.
    ///
    /// # Errors
    /// Memory ran out. The arguments are dropped.
    pub fn make(
        alloc: Global,
        normal: Normal,
        shape: Shape,
        first_phase: u64,
        last_phase: u64,
        room: u32,
    ) -> Result<(EpochArena, EpochBlank), AllocError>
        requires setting { IsSetting (epoch_setting normal shape first_phase last_phase) }
        requires last { last_phase ≤ MOST_PHASES }
        requires fits { Fits (bare normal) (epoch_setting normal shape first_phase last_phase) }
        ensures arena { IfOk result (λ p. p.0.fixed ≡ record { target = bare_pair normal; setting = epoch_setting normal shape first_phase last_phase }) }
        ensures blank { IfOk result (λ p. p.1 ≡ record { table = p.0.table; fixed = p.0.fixed; room = room; found = 0; accesses = 0; parts = 0 ∷ [] }) }
    {
        let callers = shape.callers();
        let setting = setting_of(&normal, shape, first_phase, last_phase);
        let (arena, blank) = Arena::make_bare(alloc, normal, setting, room)?;
        with_room(alloc, callers, arena, blank)
    }

    /// Closes the table with all its callers at rest. Takes no memory, and waits for nobody.
    #[tactic(auto, using(crate::proofs::Closing::have_room, crate::proofs::Closing::closed_so))]
    pub fn close(self, rest: EpochRest) -> EpochFinal
        requires came { CameFrom self rest.table rest.fixed }
        requires all { length rest.entries ≡ callers_of self.fixed }
        ensures { IsClosed self.fixed rest.entries result.phase result.entries }
    {
        let EpochArena { arena, mut list } = self;
        let EpochRest { rest } = rest;
        let (phase, entries) = arena.close_apart(rest);
        pour(&mut list, entries);
        EpochFinal {
            phase,
            entries: Listed::from_vec(list),
        }
    }
}
