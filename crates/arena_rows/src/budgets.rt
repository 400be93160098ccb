//! Callers of a hall, call by call and step by step, on one thread.

ghost use Rattle.std.specs.Prelude.{IfOk};

use crate::hall::{Hall, both};
use crate::told::add_outcome;
use row_spelling::{Deed, RowError, Who, moves_in};
use std::alloc::Global;

/// A caller begins a call or goes on, and its outcome is told, and how it stands.
fn go<H: Hall>(
    hall: &H,
    caller: &mut H::Caller,
    deed: Deed,
    out: &mut String,
) -> Result<(), RowError>
    requires came { H.has_caller hall.now caller.old }
    ensures came { H.has_caller hall.now caller.new }
{
    let outcome = match deed {
        Deed::Begins { call, with } => hall.operate(caller, call as usize, with),
        Deed::GoesOn(budget) => hall.resume(caller, budget),
    };
    add_outcome(out, outcome)?;
    hall.add_caller(out, caller)
}

fn go_alone<H: Hall>(
    hall: &H,
    caller: &mut H::Caller,
    moves: &[(Who, Deed)],
    out: &mut String,
) -> Result<(), RowError>
    requires came { H.has_caller hall.now caller.old }
    ensures came { H.has_caller hall.now caller.new }
{
    hall.add_caller(out, caller)?;
    for (who, deed) in moves {
        match who {
            Who::First => go(hall, caller, *deed, out)?,
            Who::Second => return Err(RowError::Wrong),
        }
    }
    Ok(())
}

fn go_together<H: Hall>(
    hall: &H,
    one: &mut H::Caller,
    two: &mut H::Caller,
    moves: &[(Who, Deed)],
    out: &mut String,
) -> Result<(), RowError>
    requires one { H.has_caller hall.now one.old }
    requires two { H.has_caller hall.now two.old }
    ensures one { H.has_caller hall.now one.new }
    ensures two { H.has_caller hall.now two.new }
{
    hall.add_caller(out, one)?;
    hall.add_caller(out, two)?;
    for (who, deed) in moves {
        match who {
            Who::First => go(hall, one, *deed, out)?,
            Who::Second => go(hall, two, *deed, out)?,
        }
    }
    Ok(())
}

/// The hall's one caller goes, and then rests.
fn rest_alone<H: Hall>(
    hall: &H,
    blank: H::Blank,
    moves: &[(Who, Deed)],
    out: &mut String,
) -> Result<H::Rest, RowError>
    requires { H.has_blank hall.now blank }
    ensures { IfOk result (λ rest. H.has_rest hall.now rest) }
{
    match hall.enter(blank) {
        Some(mut caller) => {
            go_alone(hall, &mut caller, moves, out)?;
            Ok(hall.rest_one(caller))
        }
        None => Err(RowError::Wrong),
    }
}

/// The hall's two callers go, and then rest.
fn rest_both<H: Hall>(
    alloc: Global,
    hall: &H,
    blank: H::Blank,
    moves: &[(Who, Deed)],
    out: &mut String,
) -> Result<H::Rest, RowError>
    requires { H.has_blank hall.now blank }
    ensures { IfOk result (λ rest. H.has_rest hall.now rest) }
{
    match both(alloc, hall, blank) {
        Some((mut one, mut two)) => {
            let gone = go_together(hall, &mut one, &mut two, moves, out);
            let rest = hall.rest_two(one, two);
            gone?;
            Ok(rest)
        }
        None => Err(RowError::Wrong),
    }
}

/// The callers go as the row's kind says, one alone or two together, and then rest.
fn rest_of<H: Hall>(
    alloc: Global,
    hall: &H,
    blank: H::Blank,
    kind: &str,
    moves: &[(Who, Deed)],
    out: &mut String,
) -> Result<H::Rest, RowError>
    requires { H.has_blank hall.now blank }
    ensures { IfOk result (λ rest. H.has_rest hall.now rest) }
{
    match kind {
        "alone" => rest_alone(hall, blank, moves, out),
        "together" => rest_both(alloc, hall, blank, moves, out),
        _ => Err(RowError::Wrong),
    }
}

/// The same, by the moves that a row spells.
fn all_rest<H: Hall>(
    alloc: Global,
    hall: &H,
    blank: H::Blank,
    kind: &str,
    moves: &str,
    out: &mut String,
) -> Result<H::Rest, RowError>
    requires { H.has_blank hall.now blank }
    ensures { IfOk result (λ rest. H.has_rest hall.now rest) }
{
    let moves = moves_in(alloc, moves, "operates", "resumes")?;
    let rest = rest_of(alloc, hall, blank, kind, &moves, out);
    drop(moves);
    rest
}

/// What the callers of a hall do, and how they stand at the end.
pub(crate) fn budgets<H: Hall>(
    alloc: Global,
    hall: H,
    blank: H::Blank,
    kind: &str,
    moves: &str,
    out: &mut String,
) -> Result<(), RowError>
    requires { H.has_blank hall blank }
{
    match all_rest(alloc, &hall, blank, kind, moves, out) {
        Ok(rest) => hall.close(rest, out),
        Err(error) => {
            drop(hall);
            Err(error)
        }
    }
}
