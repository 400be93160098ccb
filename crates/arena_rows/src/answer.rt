//! What a row is answered.

ghost use Rattle.std.specs.Prelude.{IfSome};
ghost use Rattle.word_runner.specs.Shown.{CameFrom};

use crate::announced::announced;
use crate::budgets::budgets;
use crate::meeting::meeting;
use crate::places::places;
use crate::plans::planned;
use crate::sharing::sharing;
use crate::spent::spent;
use crate::words::{WordHall, open};
use row_spelling::{NamedLines, RowError, number, spelled};
use std::alloc::Global;
use std::thread::Threads;
use word_runner::Blank;

/// What the blanks or the callers of a hall do.
fn in_hall<R: Threads + Sync>(
    rt: &R,
    alloc: Global,
    kind: &str,
    rest: &str,
    hall: WordHall,
    blank: Blank,
    out: &mut String,
) -> Result<(), RowError>
    requires { CameFrom hall blank.table blank.fixed }
{
    if kind == "places" {
        let count = number(rest).unwrap_or(0);
        let answered = places(alloc, &hall, blank, count, out);
        drop(hall);
        answered
    } else if kind == "meet" {
        let budget = number(rest).unwrap_or(0);
        meeting(rt, alloc, hall, blank, budget, out)
    } else {
        budgets(alloc, hall, blank, kind, rest, out)
    }
}

/// A hall of the document, and its first blank.
fn hall_of(alloc: Global, room: u32, bytes: &[u8]) -> Option<(WordHall, Blank)>
    ensures { IfSome result (λ p. CameFrom p.0 p.1.table p.1.fixed) }
{
    open(alloc, planned(alloc, bytes)?, room)
}

/// The row of the callers of a document, and what it says before that: for how many replies each has room, and what they do.
fn hall_row<R: Threads + Sync>(
    rt: &R,
    alloc: Global,
    kind: &str,
    words: &str,
    bytes: &[u8],
    out: &mut String,
) -> Result<(), RowError> {
    let Some((head, rest)) = words.split_once(", ") else {
        return Err(RowError::Wrong);
    };
    let Ok(room) = u32::try_from(number(head).unwrap_or(0)) else {
        return Err(RowError::Wrong);
    };
    if kind == "announced" {
        return announced(alloc, room, rest, bytes, out);
    }
    match hall_of(alloc, room, bytes) {
        Some((hall, blank)) => in_hall(rt, alloc, kind, rest, hall, blank, out),
        None => Err(RowError::Wrong),
    }
}

/// A row whose first word says what callers do on an arena.
fn caller_row<R: Threads + Sync>(
    rt: &R,
    alloc: Global,
    row: &str,
    bytes: &[u8],
    out: &mut String,
) -> Result<(), RowError> {
    match row.split_once(' ') {
        Some((kind, words)) => hall_row(rt, alloc, kind, words, bytes, out),
        None => Err(RowError::Wrong),
    }
}

/// Writes the lines that answer a row, whose last part spells a document.
pub(crate) fn answer<R: Threads + Sync>(
    rt: &R,
    alloc: Global,
    named: &[NamedLines],
    line: &str,
    out: &mut String,
) -> Result<(), RowError> {
    let Some((row, spelling)) = line.split_once(" < ") else {
        return Err(RowError::Wrong);
    };
    let bytes = spelled(alloc, named, spelling)?;
    match row {
        "sharing" => sharing(rt, alloc, &bytes, out),
        "spent" => spent(alloc, &bytes, out),
        _ => caller_row(rt, alloc, row, &bytes, out),
    }
}
