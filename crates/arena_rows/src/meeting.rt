//! Two callers of an arena who make a call each at the same time, in threads of their own.

ghost use Rattle.std.specs.Prelude.{IfOk};
ghost use Rattle.word_runner.specs.Shown.{CameFrom};

use crate::hall::{Hall, both};
use crate::told::add_outcome;
use crate::words::WordHall;
use row_spelling::RowError;
use std::alloc::Global;
use std::thread::{Threads, join_mut};
use word_runner::{Blank, Caller, Outcome, Rest};

/// Each caller takes the first call of its script, by at most so many steps.
fn operate_both<R: Threads + Sync>(
    rt: &R,
    hall: &WordHall,
    one: &mut Caller,
    two: &mut Caller,
    budget: u64,
) -> (Option<Outcome>, Option<Outcome>)
    requires one { CameFrom hall.now one.old.table one.old.fixed }
    requires two { CameFrom hall.now two.old.table two.old.fixed }
    ensures one { CameFrom hall.now one.new.table one.new.fixed }
    ensures two { CameFrom hall.now two.new.table two.new.fixed }
{
    join_mut(
        rt,
        &mut ||
            requires { CameFrom hall.now one.now.table one.now.fixed }
            ensures { CameFrom hall.entry.now one.exit.now.table one.exit.now.fixed }
        { hall.operate(one, 0, budget) },
        &mut ||
            requires { CameFrom hall.now two.now.table two.now.fixed }
            ensures { CameFrom hall.entry.now two.exit.now.table two.exit.now.fixed }
        { hall.operate(two, 0, budget) },
    )
}

/// The same, and both outcomes are told, and how the callers stand.
fn go_at_once<R: Threads + Sync>(
    rt: &R,
    hall: &WordHall,
    one: &mut Caller,
    two: &mut Caller,
    budget: u64,
    out: &mut String,
) -> Result<(), RowError>
    requires one { CameFrom hall.now one.old.table one.old.fixed }
    requires two { CameFrom hall.now two.old.table two.old.fixed }
    ensures one { CameFrom hall.now one.new.table one.new.fixed }
    ensures two { CameFrom hall.now two.new.table two.new.fixed }
{
    let (first, second) = operate_both(rt, hall, one, two, budget);
    add_outcome(out, first)?;
    hall.add_caller(out, one)?;
    add_outcome(out, second)?;
    hall.add_caller(out, two)
}

/// The hall's two callers make their calls, and then rest.
fn rest_met<R: Threads + Sync>(
    rt: &R,
    alloc: Global,
    hall: &WordHall,
    blank: Blank,
    budget: u64,
    out: &mut String,
) -> Result<Rest, RowError>
    requires { CameFrom hall.now blank.table blank.fixed }
    ensures { IfOk result (λ rest. CameFrom hall.now rest.table rest.fixed) }
{
    match both(alloc, hall, blank) {
        Some((mut one, mut two)) => {
            let gone = go_at_once(rt, hall, &mut one, &mut two, budget, out);
            let rest = hall.rest_two(one, two);
            gone?;
            Ok(rest)
        }
        None => Err(RowError::Wrong),
    }
}

/// What two callers who meet do, and how they stand at the end.
pub(crate) fn meeting<R: Threads + Sync>(
    rt: &R,
    alloc: Global,
    hall: WordHall,
    blank: Blank,
    budget: u64,
    out: &mut String,
) -> Result<(), RowError>
    requires { CameFrom hall blank.table blank.fixed }
{
    match rest_met(rt, alloc, &hall, blank, budget, out) {
        Ok(rest) => hall.close(rest, out),
        Err(error) => {
            drop(hall);
            Err(error)
        }
    }
}
