//! The start of callers under epochs, their calls and their steps, on words in a vector.

ghost use Rattle.std.specs.Prelude.{◌≡◌, ◌<◌, option_copied, IfOk};
ghost use Rattle.std.specs.Option.{option_map};
ghost use Rattle.target_code.specs.Bare.{bare, bare_op};
ghost use Rattle.caller_parts.specs.Calls.{is_call_of};
ghost use Rattle.core_ground.specs.Running.{bare_pair};
ghost use Rattle.core_entries.specs.Callers.{BelongsTo};
ghost use Rattle.core_entries.specs.Steps.{WordsSound};

use crate::bare::BareRow;
use crate::steps::{are_zero, past};
use core_ground::Runs;
use epoch_core::EpochEntry;
use norm_lang::text::Op;
use oa_core::{PlainWords, Port};
use phase_pools::access::Access;
use std::alloc::{AllocError, Global};

/// The words at the start.
pub(crate) fn words_of(alloc: Global, row: &BareRow<'_>) -> Result<PlainWords, AllocError>
    ensures { IfOk result (λ words. WordsSound (bare row.now.0) row.now.1 words) }
{
    row.kept();
    let setting = row.setting();
    let words = PlainWords::of(alloc, Runs::Bare(row.normal), &setting)?;
    Ok(words)
}

/// An idle entry of a caller with this number.
pub(crate) fn entry_of(
    alloc: Global,
    row: &BareRow<'_>,
    number: u32,
    room: u32,
) -> Result<EpochEntry, AllocError>
    requires { number < row.now.1.sizes.callers }
    ensures { IfOk result (λ e. BelongsTo (bare_pair row.now.0) row.now.1 e.core) }
{
    row.kept();
    let entry = EpochEntry::new(alloc, number, room)?;
    Ok(entry)
}

fn is_call_of(op: Option<&Op>, args: &[u64; 4]) -> bool
    ensures { result ≡ is_call_of (option_map bare_op (option_copied op.entry)) args.now }
{
    match op {
        None => false,
        Some(op) => are_zero(past(args, op.args as usize)),
    }
}

/// Whether the entry takes a call with one argument: it is idle, has room for the reply, and the text has the call.
pub(crate) fn begin(row: &BareRow<'_>, entry: &mut EpochEntry, op: u8, arg: u64) -> bool
    requires { BelongsTo (bare_pair row.now.0) row.now.1 entry.old.core }
    ensures { BelongsTo (bare_pair row.now.0) row.now.1 entry.new.core }
{
    let args = [arg, 0, 0, 0];
    let found = row.normal.text().ops.items().get(op as usize);
    if !entry.is_idle() || entry.spare() == 0 || !is_call_of(found, &args) {
        return false;
    }
    entry.begin(row.normal, op, args);
    true
}

/// A step of a caller that runs: its access. If the caller is idle, there is none.
pub(crate) fn step(
    row: &BareRow<'_>,
    entry: &mut EpochEntry,
    words: &mut PlainWords,
) -> Option<Access>
    requires belongs { BelongsTo (bare_pair row.now.0) row.now.1 entry.old.core }
    requires lawful { WordsSound (bare row.now.0) row.now.1 words.old }
    ensures belongs { BelongsTo (bare_pair row.now.0) row.now.1 entry.new.core }
    ensures lawful { WordsSound (bare row.now.0) row.now.1 words.new }
{
    row.kept();
    match entry.pending(row.normal, &row.shape, row.last) {
        None => None,
        Some(access) => {
            let word = words.access(access);
            entry.accept(row.normal, &row.shape, row.last, word);
            Some(access)
        }
    }
}
