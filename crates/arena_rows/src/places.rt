//! Places: as many callers enter as the setting has, and no more.

ghost use Rattle.std.specs.Prelude.{IfSome};
ghost use Rattle.word_runner.specs.Shown.{CameFrom};

use crate::hall::Hall;
use crate::words::WordHall;
use row_spelling::RowError;
use std::alloc::Global;
use std::fmt::Write;
use word_runner::{Blank, Caller, NoPlace};

fn add_entered(out: &mut String, found: u32, caller: &Caller) -> Result<(), RowError> {
    let number = caller.number();
    let spare = caller.spare();
    Ok(writeln!(out, "found {found}, caller {number}, spare {spare}")?)
}

/// Another blank enters, and it is told as whom.
fn enter_one(
    alloc: Global,
    hall: &WordHall,
    blank: &mut Blank,
    out: &mut String,
) -> Result<(), RowError>
    requires came { CameFrom hall.now blank.old.table blank.old.fixed }
    ensures came { CameFrom hall.now blank.new.table blank.new.fixed }
{
    match hall.second(alloc, blank) {
        Some(other) => {
            let found = other.found();
            match hall.enter(other) {
                Some(caller) => add_entered(out, found, &caller),
                None => Err(RowError::Wrong),
            }
        }
        None => Err(RowError::Wrong),
    }
}

fn enter_some(
    alloc: Global,
    hall: &WordHall,
    blank: &mut Blank,
    count: u64,
    out: &mut String,
) -> Result<(), RowError>
    requires came { CameFrom hall.now blank.old.table blank.old.fixed }
    ensures came { CameFrom hall.now blank.new.table blank.new.fixed }
{
    for _ in 0..count {
        enter_one(alloc, hall, blank, out)?;
    }
    Ok(())
}

/// Tells how many places a blank found taken at its first try, before its second, and after that.
fn add_none_twice(
    out: &mut String,
    callers: u32,
    first: u32,
    second: u32,
    again: &NoPlace,
) -> Result<(), RowError> {
    let most = again.callers;
    let third = again.blank.found();
    writeln!(out, "found {first}, none of {callers}")?;
    Ok(writeln!(out, "found {second}, none of {most}\nfound {third}, ")?)
}

/// A blank finds no place, and is handed back.
fn find_none(hall: &WordHall, blank: Blank) -> Option<NoPlace>
    requires { CameFrom hall.now blank.table blank.fixed }
    ensures { IfSome result (λ none. CameFrom hall.now none.blank.table none.blank.fixed) }
{
    match blank.enter(hall.arena()) {
        Ok(_) => None,
        Err(none) => Some(none),
    }
}

/// A blank finds all places taken, and so again when it is handed back.
fn find_none_twice(hall: &WordHall, blank: Blank, out: &mut String) -> Result<(), RowError>
    requires { CameFrom hall.now blank.table blank.fixed }
{
    let first = blank.found();
    let Some(none) = find_none(hall, blank) else {
        return Err(RowError::Wrong);
    };
    let callers = none.callers;
    let second = none.blank.found();
    let Some(again) = find_none(hall, none.blank) else {
        return Err(RowError::Wrong);
    };
    add_none_twice(out, callers, first, second, &again)
}

/// So many other blanks enter; then this one tries it twice.
pub(crate) fn places(
    alloc: Global,
    hall: &WordHall,
    blank: Blank,
    count: u64,
    out: &mut String,
) -> Result<(), RowError>
    requires came { CameFrom hall.now blank.table blank.fixed }
{
    let mut blank = blank;
    enter_some(alloc, hall, &mut blank, count, out)?;
    find_none_twice(hall, blank, out)
}
