//! Making an arena, and closing it.

ghost use Rattle.std.specs.Prelude.{◌≡◌, [], ◌∷◌, length, IfOk};
ghost use Rattle.caller_parts.specs.declared.setting.Reclamation.TheVariants.{Epochs};
ghost use Rattle.caller_parts.specs.Settings.{Fits};
ghost use Rattle.core_ground.specs.Running.{bare_pair};
ghost use Rattle.word_runner.specs.Shown.{CameFrom};
ghost use Rattle.word_runner.specs.table_rule.Rule.{callers_of};
ghost use Rattle.oa_words.specs.Words.{word_count};
ghost use Rattle.word_runner.specs.table_rule.Seen.{newcomer, IsGround};
ghost use Rattle.word_runner.specs.table_rule.Closing.{IsClosed};

use crate::arena::Arena;
use crate::blank::{Blank, supplies};
use crate::ground::{Ground, Place, Words};
use crate::rest::Rest;
use barrier_check::Barred;
use caller_steps::Setting;
use core_entries::Entry;
use core_ground::{LoadedTarget, PlainWords};
use norm_check::Normal;
use norm_lang::list::Listed;
use std::alloc::{AllocError, Global};

/// Entries of callers.
pub type EntryList = Listed<Entry>;

/// The phase word and the entries of all callers, in the order of their numbers: those of one state.
#[derive(Drop)]
pub struct Final {
    pub phase: u64,
    pub entries: EntryList,
}

impl Arena {
    /// A table for the callers of a setting that fits the target, and its first blank, with room for `room` replies. It is meant for
    /// optimistic access: under epochs a call that comes to a check of the target stays there until its budget is spent.
    ///
    /// # Errors
    /// Memory ran out. The arguments are dropped.
    pub fn make(
        alloc: Global,
        barred: Barred,
        setting: Setting,
        room: u32,
    ) -> Result<(Arena, Blank), AllocError>
        requires fits { Fits barred.target setting }
        ensures arena { IfOk result (λ p. p.0.fixed ≡ record { target = barred; setting = setting }) }
        ensures blank { IfOk result (λ p. p.1 ≡ record { table = p.0.table; fixed = p.0.fixed; room = room; found = 0; accesses = 0; parts = 0 ∷ [] }) }
    {
        setting.kept();
        let target = LoadedTarget::new(barred);
        target.kept();
        Arena::load(alloc, Ground { target, setting }, room)
    }

    /// The same for a text that is run as it is, under epochs.
    ///
    /// # Errors
    /// Memory ran out. The arguments are dropped.
    pub fn make_bare(
        alloc: Global,
        normal: Normal,
        setting: Setting,
        room: u32,
    ) -> Result<(Arena, Blank), AllocError>
        requires fits { Fits (bare_pair normal).target setting }
        requires epochs { setting.reclamation ≡ Epochs }
        ensures arena { IfOk result (λ p. p.0.fixed ≡ record { target = bare_pair normal; setting = setting }) }
        ensures blank { IfOk result (λ p. p.1 ≡ record { table = p.0.table; fixed = p.0.fixed; room = room; found = 0; accesses = 0; parts = 0 ∷ [] }) }
    {
        setting.kept();
        let target = LoadedTarget::bare(normal);
        target.kept();
        Arena::load(alloc, Ground { target, setting }, room)
    }

    fn load(alloc: Global, ground: Ground, room: u32) -> Result<(Arena, Blank), AllocError>
        requires { IsGround ground }
        ensures arena { IfOk result (λ p. p.0.fixed ≡ ground) }
        ensures blank { IfOk result (λ p. p.1 ≡ record { table = p.0.table; fixed = p.0.fixed; room = room; found = 0; accesses = 0; parts = 0 ∷ [] }) }
    {
        match begin_on(alloc, &ground, room) {
            Ok((table, blank)) => Ok((Arena::over(table, ground), blank)),
            Err(error) => {
                drop(ground);
                Err(error)
            }
        }
    }

    /// `close`, with the phase and the entries apart.
    pub fn close_apart(self, rest: Rest) -> (u64, Vec<Entry>)
        requires came { CameFrom self rest.table rest.fixed }
        requires all { length rest.entries ≡ callers_of self.fixed }
        ensures { IsClosed self.fixed rest.entries result.0 result.1.items }
    {
        let (place, entries) = rest.parts();
        let phase = self.shut(place);
        let mut entries = entries;
        entries.sort_unstable_by_key(|e| e.number());
        (phase, entries)
    }

    /// Closes the table with all its callers at rest. Takes no memory, and waits for nobody.
    pub fn close(self, rest: Rest) -> Final
        requires came { CameFrom self rest.table rest.fixed }
        requires all { length rest.entries ≡ callers_of self.fixed }
        ensures { IsClosed self.fixed rest.entries result.phase result.entries }
    {
        let (phase, entries) = self.close_apart(rest);
        Final {
            phase,
            entries: Listed::from_vec(entries),
        }
    }
}

/// A table with the words of the start, and its first seat.
fn table_on(alloc: Global, ground: &Ground) -> Result<(Words, Place), AllocError>
    requires { IsGround ground.now }
    ensures table { IfOk result (λ p. (p.0.shared.key ≡ ground.now) × (p.0.shared.table_id.words ≡ word_count ground.now.setting.sizes) × (p.0.shared.table_id.slots ≡ 0)) }
    ensures place { IfOk result (λ p. (p.1.table_id ≡ p.0.shared.table_id) × (p.1.me ≡ (newcomer ground.now, []))) }
{
    let words = PlainWords::of(alloc, ground.target.runs(), &ground.setting)?;
    Words::of_words(alloc, words.words(), ground)
}

/// A table with the words of the start, and its first blank.
fn begin_on(alloc: Global, ground: &Ground, room: u32) -> Result<(Words, Blank), AllocError>
    requires { IsGround ground.now }
    ensures table { IfOk result (λ p. (p.0.shared.key ≡ ground.now) × (p.0.shared.table_id.words ≡ word_count ground.now.setting.sizes) × (p.0.shared.table_id.slots ≡ 0)) }
    ensures blank { IfOk result (λ p. p.1 ≡ record { table = p.0.shared.table_id; fixed = ground.now; room = room; found = 0; accesses = 0; parts = 0 ∷ [] }) }
{
    ground.setting.kept();
    let (entry, list) = supplies(alloc, ground.setting.shape().callers(), room)?;
    let (table, place) = table_on(alloc, ground)?;
    Ok((table, Blank::over(place, entry, list)))
}
