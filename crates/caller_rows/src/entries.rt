//! Rows of entries as they are made, and of settings.

ghost use Rattle.std.specs.Prelude.{◌≡◌};
ghost use Rattle.caller_steps.specs.Entries.{idle_entry};

use crate::told::add_entry;
use oa_core::{Entry, Setting};
use oa_words::shape::Shape;
use row_spelling::{RowError, numbers};
use std::alloc::{AllocError, Global};
use std::fmt::Write;

fn add_numbered(out: &mut String, entry: &Entry) -> Result<(), AllocError> {
    let number = entry.number();
    write!(out, "{number}: ")?;
    add_entry(out, entry)
}

/// An entry with its number, and with another.
fn add_both(out: &mut String, entry: &mut Entry, other: u32) -> Result<(), AllocError>
    requires { entry.old.core ≡ idle_entry entry.old.core.number }
{
    add_numbered(out, entry)?;
    entry.renumber(other);
    add_numbered(out, entry)
}

fn add_made(
    alloc: Global,
    number: u32,
    room: u32,
    other: u32,
    out: &mut String,
) -> Result<(), AllocError> {
    let mut entry = Entry::new(alloc, number, room)?;
    add_both(out, &mut entry, other)
}

fn add_made_of(alloc: Global, numbers: &[u64], out: &mut String) -> Result<(), RowError> {
    let [number, room, other] = numbers else {
        return Err(RowError::Wrong);
    };
    match (
        u32::try_from(*number),
        u32::try_from(*room),
        u32::try_from(*other),
    ) {
        (Ok(number), Ok(room), Ok(other)) => Ok(add_made(alloc, number, room, other, out)?),
        _ => Err(RowError::Wrong),
    }
}

/// The row of an entry: its number, its room, and another number.
pub(crate) fn entry_row(alloc: Global, row: &str, out: &mut String) -> Result<(), RowError> {
    let numbers = numbers(alloc, row)?;
    add_made_of(alloc, &numbers, out)
}

fn add_setting(out: &mut String, setting: &Setting) -> Result<(), AllocError> {
    let callers = setting.shape().callers();
    let first = setting.first_phase();
    let last = setting.last_phase();
    let [items, pairs, third, fourth] = setting.nodes();
    writeln!(
        out,
        "callers {callers}, first {first}, last {last}, nodes {items} {pairs} {third} {fourth}"
    )
}

/// A setting of a shape, phases and initial nodes, or why it is refused.
fn add_set(
    shape: Shape,
    first: u64,
    last: u64,
    nodes: [u32; 4],
    out: &mut String,
) -> Result<(), AllocError> {
    match Setting::new(shape, first, last, nodes) {
        Ok(setting) => add_setting(out, &setting),
        Err(fault) => writeln!(out, "refused for its {fault:?}"),
    }
}

/// A count of initial nodes; one that isn't of 32 bits is more than any kind has slots.
fn count_of(nodes: u64) -> u32 {
    u32::try_from(nodes).unwrap_or(u32::MAX)
}

fn add_set_of(numbers: &[u64], out: &mut String) -> Result<(), RowError> {
    match numbers {
        [callers, slots, fields, roots, first, last, nodes] => {
            let Ok(shape) = Shape::new(*callers, *slots, *fields, *roots) else {
                return Err(RowError::Wrong);
            };
            Ok(add_set(shape, *first, *last, [count_of(*nodes), 0, 0, 0], out)?)
        }
        [
            callers,
            items,
            pairs,
            fields,
            roots,
            first,
            last,
            nodes,
            others,
        ] => {
            let slots = [*items, *pairs, 0, 0];
            let Ok(shape) = Shape::of_kinds(*callers, slots, 2, *fields, *roots) else {
                return Err(RowError::Wrong);
            };
            let nodes = [count_of(*nodes), count_of(*others), 9, 9];
            Ok(add_set(shape, *first, *last, nodes, out)?)
        }
        _ => Err(RowError::Wrong),
    }
}

/// The row of a setting: callers, slots, fields, roots, the first and the last phase, and initial nodes. Of two kinds slots and
/// initial nodes are two numbers each; the counts of initial nodes past the kinds are 9.
pub(crate) fn setting_row(alloc: Global, row: &str, out: &mut String) -> Result<(), RowError> {
    let numbers = numbers(alloc, row)?;
    add_set_of(&numbers, out)
}
