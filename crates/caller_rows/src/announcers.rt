//! Rows of entries under epochs: as they are made, and as they take calls and make steps.

ghost use Rattle.std.specs.Prelude.{◌≡◌, ◌<◌};
ghost use Rattle.target_code.specs.Bare.{bare};
ghost use Rattle.caller_steps.specs.Entries.{idle_entry};
ghost use Rattle.core_ground.specs.Running.{bare_pair};
ghost use Rattle.core_entries.specs.Callers.{BelongsTo};
ghost use Rattle.core_entries.specs.Steps.{WordsSound};

use crate::announcing::{begin, entry_of, step, words_of};
use crate::bare::{BareRow, row_for, text_in};
use crate::told::add_access;
use epoch_core::EpochEntry;
use norm_check::Normal;
use oa_core::PlainWords;
use row_replies::add_replies;
use row_spelling::{Deed, RowError, Who, moves_in, numbers};
use std::alloc::{AllocError, Global};
use std::fmt::Write;

/// How an entry stands, in a line.
fn add_entry(out: &mut String, entry: &EpochEntry) -> Result<(), AllocError> {
    let state = if entry.is_idle() { "idle" } else { "runs" };
    let replies = entry.replies().len();
    let spare = entry.spare();
    let claims = entry.claims();
    let restarts = entry.restarts();
    writeln!(
        out,
        "{state}, replies {replies}, spare {spare}, claims {claims}, restarts {restarts}"
    )
}

fn add_numbered(out: &mut String, entry: &EpochEntry) -> Result<(), AllocError> {
    let number = entry.number();
    write!(out, "{number}: ")?;
    add_entry(out, entry)
}

/// An entry with its number, and with another.
fn add_both(out: &mut String, entry: &mut EpochEntry, other: u32) -> Result<(), AllocError>
    requires { entry.old.core ≡ idle_entry entry.old.core.number }
{
    add_numbered(out, entry)?;
    entry.renumber(other);
    add_numbered(out, entry)
}

fn add_made(
    alloc: Global,
    number: u32,
    room: u32,
    other: u32,
    out: &mut String,
) -> Result<(), AllocError> {
    let mut entry = EpochEntry::new(alloc, number, room)?;
    add_both(out, &mut entry, other)
}

fn add_made_of(alloc: Global, numbers: &[u64], out: &mut String) -> Result<(), RowError> {
    let [number, room, other] = numbers else {
        return Err(RowError::Wrong);
    };
    match (
        u32::try_from(*number),
        u32::try_from(*room),
        u32::try_from(*other),
    ) {
        (Ok(number), Ok(room), Ok(other)) => Ok(add_made(alloc, number, room, other, out)?),
        _ => Err(RowError::Wrong),
    }
}

/// The row of an entry under epochs: its number, its room, and another number.
pub(crate) fn announcer_row(alloc: Global, row: &str, out: &mut String) -> Result<(), RowError> {
    let numbers = numbers(alloc, row)?;
    add_made_of(alloc, &numbers, out)
}

/// A caller makes so many steps, and each is told. If it makes none, that is told.
fn make_steps(
    row: &BareRow<'_>,
    entry: &mut EpochEntry,
    words: &mut PlainWords,
    count: u64,
    out: &mut String,
) -> Result<(), RowError>
    requires belongs { BelongsTo (bare_pair row.now.0) row.now.1 entry.old.core }
    requires lawful { WordsSound (bare row.now.0) row.now.1 words.old }
    ensures belongs { BelongsTo (bare_pair row.now.0) row.now.1 entry.new.core }
    ensures lawful { WordsSound (bare row.now.0) row.now.1 words.new }
{
    for _ in 0..count {
        match step(row, entry, words) {
            Some(access) => add_access(out, access)?,
            None => out.push_str("no step, ")?,
        }
    }
    Ok(())
}

/// A caller takes a call. If it can't, that is told.
fn take_call(
    row: &BareRow<'_>,
    entry: &mut EpochEntry,
    op: u64,
    arg: u64,
    out: &mut String,
) -> Result<(), RowError>
    requires { BelongsTo (bare_pair row.now.0) row.now.1 entry.old.core }
    ensures { BelongsTo (bare_pair row.now.0) row.now.1 entry.new.core }
{
    match u8::try_from(op) {
        Ok(op) => {
            if begin(row, entry, op, arg) {
                Ok(())
            } else {
                Ok(out.push_str("no call, ")?)
            }
        }
        Err(_) => Err(RowError::Wrong),
    }
}

/// What a caller does, and how its entry stands then.
fn make_move(
    row: &BareRow<'_>,
    entry: &mut EpochEntry,
    words: &mut PlainWords,
    deed: Deed,
    out: &mut String,
) -> Result<(), RowError>
    requires belongs { BelongsTo (bare_pair row.now.0) row.now.1 entry.old.core }
    requires lawful { WordsSound (bare row.now.0) row.now.1 words.old }
    ensures belongs { BelongsTo (bare_pair row.now.0) row.now.1 entry.new.core }
    ensures lawful { WordsSound (bare row.now.0) row.now.1 words.new }
{
    let made = match deed {
        Deed::Begins { call, with } => take_call(row, entry, call, with, out),
        Deed::GoesOn(count) => make_steps(row, entry, words, count, out),
    };
    made?;
    Ok(add_entry(out, entry)?)
}

/// The replies of the first caller, and of the last if it is another.
fn add_all_replies(
    out: &mut String,
    first: &EpochEntry,
    last: &EpochEntry,
) -> Result<(), RowError> {
    add_replies(out, first.replies())?;
    if last.number() == 0 {
        return Ok(());
    }
    Ok(add_replies(out, last.replies())?)
}

/// The moves of a row's callers, the first and the last of so many, and then their replies.
fn act(
    row: &BareRow<'_>,
    first: &mut EpochEntry,
    last: &mut EpochEntry,
    words: &mut PlainWords,
    moves: &[(Who, Deed)],
    out: &mut String,
) -> Result<(), RowError>
    requires first { BelongsTo (bare_pair row.now.0) row.now.1 first.old.core }
    requires last { BelongsTo (bare_pair row.now.0) row.now.1 last.old.core }
    requires lawful { WordsSound (bare row.now.0) row.now.1 words.old }
{
    for (who, deed) in moves {
        match who {
            Who::First => make_move(row, first, words, *deed, out)?,
            Who::Second => make_move(row, last, words, *deed, out)?,
        }
    }
    add_all_replies(out, first, last)
}

/// What the first caller and that with the number do on the row's words, each with as much room as the first has.
fn act_with_last(
    alloc: Global,
    row: &BareRow<'_>,
    number: u32,
    first: &mut EpochEntry,
    words: &mut PlainWords,
    moves: &[(Who, Deed)],
    out: &mut String,
) -> Result<(), RowError>
    requires number { number < row.now.1.sizes.callers }
    requires first { BelongsTo (bare_pair row.now.0) row.now.1 first.old.core }
    requires lawful { WordsSound (bare row.now.0) row.now.1 words.old }
{
    let mut last = entry_of(alloc, row, number, first.spare())?;
    act(row, first, &mut last, words, moves, out)
}

/// What the first and the last caller of a row do, from the words at the start on.
fn act_on(
    alloc: Global,
    row: &BareRow<'_>,
    room: u32,
    moves: &[(Who, Deed)],
    out: &mut String,
) -> Result<(), RowError> {
    row.kept();
    let count = row.shape.callers();
    let mut words = words_of(alloc, row)?;
    let mut first = entry_of(alloc, row, 0, room)?;
    act_with_last(alloc, row, count - 1, &mut first, &mut words, moves, out)
}

/// What callers do that run a text as it is.
fn act_by(
    alloc: Global,
    normal: &Normal,
    numbers: &[u64],
    moves: &[(Who, Deed)],
    out: &mut String,
) -> Result<(), RowError> {
    let [callers, slots, last, room] = numbers else {
        return Err(RowError::Wrong);
    };
    match (
        row_for(normal, *callers, *slots, *last),
        u32::try_from(*room),
    ) {
        (Some(row), Ok(room)) => act_on(alloc, &row, room, moves, out),
        _ => Err(RowError::Wrong),
    }
}

/// The row of the first and the last caller of a text that is run as it is: the numbers of the row of words and the room for replies, and
/// what they do.
pub(crate) fn announcers_row(
    alloc: Global,
    head: &str,
    moves: &str,
    bytes: &[u8],
    out: &mut String,
) -> Result<(), RowError> {
    let numbers = numbers(alloc, head)?;
    let moves = moves_in(alloc, moves, "calls", "steps")?;
    let normal = text_in(alloc, bytes)?;
    let answered = act_by(alloc, &normal, &numbers, &moves, out);
    drop(normal);
    answered
}
