//! What a row is answered.

use crate::accesses::accesses;
use crate::announcers::{announcer_row, announcers_row};
use crate::callers::callers;
use crate::entries::{entry_row, setting_row};
use crate::targets::{read, setting_for};
use barrier_check::Barred;
use row_spelling::{NamedLines, RowError, numbers, spelled};
use std::alloc::Global;

/// For how many replies a row's callers have room: what comes after the numbers of the setting.
fn room_in(numbers: &[u64]) -> Option<u32> {
    match numbers {
        [_, _, _, _, room] => u32::try_from(*room).ok(),
        _ => Some(0),
    }
}

/// What a row says before its text.
#[derive(Clone, Copy)]
struct Row<'a> {
    kind: &'a str,
    head: &'a str,
    rest: &'a str,
}

/// Accesses to the words of a target, or what its callers do.
fn on_target(
    alloc: Global,
    row: Row<'_>,
    barred: &Barred,
    out: &mut String,
) -> Result<(), RowError> {
    let numbers = numbers(alloc, row.head)?;
    let setting = setting_for(barred, &numbers)?;
    if row.kind == "words" {
        return accesses(alloc, barred, &setting, row.rest, out);
    }
    match room_in(&numbers) {
        Some(room) => {
            let by_signs = row.kind == "signs";
            callers(alloc, barred, &setting, room, row.rest, by_signs, out)
        }
        None => Err(RowError::Wrong),
    }
}

/// The rows of a text's target.
fn target_row(alloc: Global, row: Row<'_>, bytes: &[u8], out: &mut String) -> Result<(), RowError> {
    let barred = read(alloc, bytes)?;
    let answered = on_target(alloc, row, &barred, out);
    drop(barred);
    answered
}

/// A row whose last part spells a text.
fn spelled_row(
    alloc: Global,
    named: &[NamedLines],
    kind: &str,
    row: &str,
    out: &mut String,
) -> Result<(), RowError> {
    let Some((words, spelling)) = row.split_once(" < ") else {
        return Err(RowError::Wrong);
    };
    let Some((head, rest)) = words.split_once(", ") else {
        return Err(RowError::Wrong);
    };
    let bytes = spelled(alloc, named, spelling)?;
    if kind == "announcers" {
        return announcers_row(alloc, head, rest, &bytes, out);
    }
    target_row(alloc, Row { kind, head, rest }, &bytes, out)
}

/// Writes the lines that answer a row.
pub(crate) fn answer(
    alloc: Global,
    named: &[NamedLines],
    line: &str,
    out: &mut String,
) -> Result<(), RowError> {
    let Some((kind, row)) = line.split_once(' ') else {
        return Err(RowError::Wrong);
    };
    match kind {
        "entry" => entry_row(alloc, row, out),
        "setting" => setting_row(alloc, row, out),
        "announcer" => announcer_row(alloc, row, out),
        "words" | "callers" | "signs" | "announcers" => spelled_row(alloc, named, kind, row, out),
        _ => Err(RowError::Wrong),
    }
}
