//! Callers who take calls and make steps.

ghost use Rattle.std.specs.Prelude.{◌<◌};
ghost use Rattle.caller_parts.specs.Settings.{Fits};
ghost use Rattle.core_entries.specs.Callers.{BelongsTo};
ghost use Rattle.core_entries.specs.Steps.{WordsSound};

use crate::steps::{begin, entry_of, step, words_of};
use crate::told::{add_entry, add_step};
use barrier_check::Barred;
use oa_core::{Entry, PlainWords, Setting};
use row_replies::add_replies;
use row_spelling::{Deed, RowError, Who, moves_in};
use std::alloc::Global;

/// A caller makes so many steps, and each is told.
fn make_steps(
    barred: &Barred,
    setting: &Setting,
    entry: &mut Entry,
    words: &mut PlainWords,
    count: u64,
    by_signs: bool,
    out: &mut String,
) -> Result<(), RowError>
    requires belongs { BelongsTo barred.now setting.now entry.old.core }
    requires lawful { WordsSound barred.now.target setting.now words.old }
    ensures belongs { BelongsTo barred.now setting.now entry.new.core }
    ensures lawful { WordsSound barred.now.target setting.now words.new }
{
    for _ in 0..count {
        let stepped = step(barred, setting, entry, words);
        add_step(out, by_signs, stepped)?;
    }
    Ok(())
}

/// A caller takes a call. If it can't, that is told.
fn take_call(
    barred: &Barred,
    setting: &Setting,
    entry: &mut Entry,
    op: u64,
    arg: u64,
    out: &mut String,
) -> Result<(), RowError>
    requires { BelongsTo barred.now setting.now entry.old.core }
    ensures { BelongsTo barred.now setting.now entry.new.core }
{
    match u8::try_from(op) {
        Ok(op) => {
            if begin(barred, setting, entry, op, arg) {
                Ok(())
            } else {
                Ok(out.push_str("no call, ")?)
            }
        }
        Err(_) => Err(RowError::Wrong),
    }
}

/// What a caller does, and how its entry stands then.
fn make_move(
    barred: &Barred,
    setting: &Setting,
    entry: &mut Entry,
    words: &mut PlainWords,
    deed: Deed,
    by_signs: bool,
    out: &mut String,
) -> Result<(), RowError>
    requires belongs { BelongsTo barred.now setting.now entry.old.core }
    requires lawful { WordsSound barred.now.target setting.now words.old }
    ensures belongs { BelongsTo barred.now setting.now entry.new.core }
    ensures lawful { WordsSound barred.now.target setting.now words.new }
{
    let made = match deed {
        Deed::Begins { call, with } => take_call(barred, setting, entry, call, with, out),
        Deed::GoesOn(count) => make_steps(barred, setting, entry, words, count, by_signs, out),
    };
    made?;
    Ok(add_entry(out, entry)?)
}

/// The replies of the first caller, and of the last if it is another.
fn add_all_replies(out: &mut String, first: &Entry, last: &Entry) -> Result<(), RowError> {
    add_replies(out, first.replies())?;
    if last.number() == 0 {
        return Ok(());
    }
    Ok(add_replies(out, last.replies())?)
}

/// The moves of a row's callers, the first and the last of so many, and then their replies.
fn act(
    barred: &Barred,
    setting: &Setting,
    first: &mut Entry,
    last: &mut Entry,
    words: &mut PlainWords,
    moves: &[(Who, Deed)],
    by_signs: bool,
    out: &mut String,
) -> Result<(), RowError>
    requires first { BelongsTo barred.now setting.now first.old.core }
    requires last { BelongsTo barred.now setting.now last.old.core }
    requires lawful { WordsSound barred.now.target setting.now words.old }
{
    for (who, deed) in moves {
        match who {
            Who::First => make_move(barred, setting, first, words, *deed, by_signs, out)?,
            Who::Second => make_move(barred, setting, last, words, *deed, by_signs, out)?,
        }
    }
    add_all_replies(out, first, last)
}

/// What the first caller of a target and that with the number do on its words, each with as much room as the first has.
fn act_with_last(
    alloc: Global,
    barred: &Barred,
    setting: &Setting,
    number: u32,
    first: &mut Entry,
    words: &mut PlainWords,
    moves: &[(Who, Deed)],
    by_signs: bool,
    out: &mut String,
) -> Result<(), RowError>
    requires fits { Fits barred.now.target setting.now }
    requires number { number < setting.now.sizes.callers }
    requires first { BelongsTo barred.now setting.now first.old.core }
    requires lawful { WordsSound barred.now.target setting.now words.old }
{
    let mut last = entry_of(alloc, barred, setting, number, first.spare())?;
    act(
        barred, setting, first, &mut last, words, moves, by_signs, out,
    )
}

/// What the first and the last caller of a target do on its words.
fn act_by_two(
    alloc: Global,
    barred: &Barred,
    setting: &Setting,
    room: u32,
    words: &mut PlainWords,
    moves: &[(Who, Deed)],
    by_signs: bool,
    out: &mut String,
) -> Result<(), RowError>
    requires fits { Fits barred.now.target setting.now }
    requires lawful { WordsSound barred.now.target setting.now words.old }
{
    let count = setting.shape().callers();
    let mut first = entry_of(alloc, barred, setting, 0, room)?;
    act_with_last(
        alloc,
        barred,
        setting,
        count - 1,
        &mut first,
        words,
        moves,
        by_signs,
        out,
    )
}

/// What a row has the first and the last caller of a target do, from the words at the start on.
pub(crate) fn callers(
    alloc: Global,
    barred: &Barred,
    setting: &Setting,
    room: u32,
    moves: &str,
    by_signs: bool,
    out: &mut String,
) -> Result<(), RowError>
    requires { Fits barred.now.target setting.now }
{
    let moves = moves_in(alloc, moves, "calls", "steps")?;
    let mut words = words_of(alloc, barred, setting)?;
    act_by_two(
        alloc, barred, setting, room, &mut words, &moves, by_signs, out,
    )
}
