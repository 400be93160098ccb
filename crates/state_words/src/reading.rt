//! The state that a word stands for.

ghost use Rattle.std.specs.Prelude.{◌≡◌, ◌<◌, ◌≤◌, ◌^◌, [], ◌∷◌, ◌++◌, length, option_copied, slice_index, OnOk, IfOk};
ghost use Rattle.state_words.specs.Layout.{at_most, reference_of, registers_at, value_at, read_list, entries_at, stand_at, running_at, caller_at, name_if, flagged, node_at, nodes_onto, run_at, memory_at, snapshot_of, word_snapshot};

use crate::cells::{cell, cells_of};
use crate::snapshot::Snapshot;
use norm_lang::list::Listed;
use norm_lang::local::instruction_at;
use norm_lang::registers::{Reference, Registers};
use norm_lang::text::{Entries, Instr, Op, Text};
use source_machine::{
    Callers, Memory, NodeRows, Replies, Running, SourceCaller, SourceMachine, Stand, Value,
};
use state_judge::ListedRun;
use std::alloc::{AllocError, Global};

fn at_most(most: u64, number: u64) -> u64
    ensures is { result ≡ at_most most number }
    ensures near { result ≤ most }
{
    if number < most { number } else { most }
}

/// A reference: twice the node, and one for its mark.
fn reference(cell: u64) -> Reference
    ensures { result ≡ reference_of cell }
{
    Reference {
        node: cell / 2,
        marked: cell % 2 == 1,
    }
}

fn registers(cells: &[u64], at: usize) -> Registers
    requires { at < 2 ^ 60 }
    ensures { result ≡ registers_at cells.now at }
{
    Registers {
        numbers: [
            cell(cells, at),
            cell(cells, at + 1),
            cell(cells, at + 2),
            cell(cells, at + 3),
            cell(cells, at + 4),
            cell(cells, at + 5),
            cell(cells, at + 6),
            cell(cells, at + 7),
        ],
        references: [
            reference(cell(cells, at + 8)),
            reference(cell(cells, at + 9)),
            reference(cell(cells, at + 10)),
            reference(cell(cells, at + 11)),
            reference(cell(cells, at + 12)),
            reference(cell(cells, at + 13)),
            reference(cell(cells, at + 14)),
            reference(cell(cells, at + 15)),
        ],
    }
}

/// A value: whether it is a reference, and the number or the reference.
fn value(cells: &[u64], at: usize) -> Value
    requires { at < 2 ^ 61 }
    ensures { result ≡ value_at cells.now at }
{
    if cell(cells, at) == 0 {
        return Value::Number(cell(cells, at + 1));
    }
    Value::Node(reference(cell(cells, at + 1)))
}

#[tactic(auto, using(crate::proofs::CellLists::read_on))]
fn values(
    alloc: Global,
    cells: &[u64],
    start: usize,
    count: u64,
) -> Result<Listed<Value>, AllocError>
    requires start { start < 2 ^ 60 }
    requires count { count ≤ 65535 }
    ensures { IfOk result (λ values. values ≡ read_list (value_at cells.now) start 2 count) }
{
    let mut values = Listed::empty(alloc);
    let mut at = start;
    for _ in 0..count {
        values.push(value(cells, at))?;
        at += 2;
    }
    Ok(values)
}

/// The exchanges of the commit at a place of a generator; at any other instruction there are none.
fn entries_at(alloc: Global, op: Option<&Op>, at: usize) -> Result<Entries, AllocError>
    ensures { IfOk result (λ entries. entries ≡ entries_at (option_copied op.entry) at) }
{
    match op {
        None => Ok(Listed::empty(alloc)),
        Some(op) => match instruction_at(&op.generator, at) {
            Some(Instr::Commit(entries)) => Listed::from_slice(alloc, entries.items()),
            _ => Ok(Listed::empty(alloc)),
        },
    }
}

/// Where an operation stands.
fn stand(alloc: Global, text: &Text, op: u64, cells: &[u64], at: usize) -> Result<Stand, AllocError>
    requires { at < 2 ^ 50 }
    ensures { IfOk result (λ stand. stand ≡ stand_at text.now op cells.now at) }
{
    let place = cell(cells, at + 7) as usize;
    if cell(cells, at + 1) == 1 {
        return Ok(Stand::InGenerator(place));
    }
    if cell(cells, at + 1) == 2 {
        let entries = entries_at(alloc, text.ops.items().get(op as usize), place)?;
        return Ok(Stand::InList(place, entries, cell(cells, at + 8) as usize));
    }
    let started = registers(cells, at + 25);
    Ok(Stand::InWrapUp(place, started, cell(cells, at + 8) == 1))
}

fn running(alloc: Global, text: &Text, cells: &[u64], at: usize) -> Result<Running, AllocError>
    requires { at < 2 ^ 50 }
    ensures { IfOk result (λ running. running ≡ running_at text.now cells.now at) }
{
    let op = at_most(255, cell(cells, at + 2));
    Ok(Running {
        op: op as u8,
        args: [
            cell(cells, at + 3),
            cell(cells, at + 4),
            cell(cells, at + 5),
            cell(cells, at + 6),
        ],
        registers: registers(cells, at + 9),
        stand: stand(alloc, text, op, cells, at)?,
    })
}

fn caller(alloc: Global, text: &Text, cells: &[u64], at: usize) -> Result<SourceCaller, AllocError>
    requires { at < 2 ^ 50 }
    ensures { IfOk result (λ caller. caller ≡ caller_at text.now cells.now at) }
{
    let replies = Replies::empty(alloc);
    if cell(cells, at + 1) == 0 {
        return Ok(SourceCaller {
            replies,
            running: None,
        });
    }
    Ok(SourceCaller {
        replies,
        running: Some(running(alloc, text, cells, at)?),
    })
}

#[tactic(auto, using(crate::proofs::CellLists::read_on))]
fn callers(alloc: Global, text: &Text, cells: &[u64], count: u32) -> Result<Callers, AllocError>
    ensures { IfOk result (λ callers. callers ≡ read_list (caller_at text.now cells.now) 2 41 count) }
{
    let mut callers = Vec::new(alloc);
    let mut at = 2;
    for _ in 0..count {
        callers.push(caller(alloc, text, cells, at)?)?;
        at += 41;
    }
    Ok(Callers::from_vec(callers))
}

#[tactic(auto, using(crate::proofs::CellLists::read_on))]
/// How many calls each caller has begun.
fn begun(alloc: Global, cells: &[u64], count: u32) -> Result<Listed<usize>, AllocError>
    ensures { IfOk result (λ begun. begun ≡ read_list (slice_index cells.now) 2 41 count) }
{
    let mut begun = Listed::empty(alloc);
    let mut at = 2;
    for _ in 0..count {
        begun.push(cell(cells, at) as usize)?;
        at += 41;
    }
    Ok(begun)
}

/// Adds a name whose flag is set.
fn push_if(flag: u64, name: u64, names: &mut Listed<u64>) -> Result<(), AllocError>
    ensures { OnOk result (names.new ≡ names.old ++ name_if flag name) }
{
    if flag == 1 {
        names.push(name)?;
    }
    Ok(())
}

/// The names of the nodes that have a flag, which stands at a place of the first node's block.
fn flagged(
    alloc: Global,
    cells: &[u64],
    start: usize,
    count: u64,
) -> Result<Listed<u64>, AllocError>
    requires start { start < 2 ^ 50 }
    requires count { count ≤ 65535 }
    ensures { IfOk result (λ names. names ≡ flagged cells.now start 1 count) }
{
    let mut names = Listed::empty(alloc);
    let mut at = start;
    for earlier in 0..count {
        push_if(cell(cells, at), earlier + 1, &mut names)?;
        at += 20;
    }
    Ok(names)
}

/// Adds the node of a block, whose values stand after a place.
fn add_node(
    alloc: Global,
    cells: &[u64],
    from: usize,
    at: usize,
    name: u64,
    rows: &mut NodeRows,
) -> Result<(), AllocError>
    requires from { from < 2 ^ 50 }
    requires at { at < 2 ^ 50 }
    ensures { OnOk result (rows.new ≡ node_at cells.now from at name ∷ rows.old) }
{
    let kind = at_most(255, cell(cells, at)) as u8;
    let count = at_most(255, cell(cells, at + 1));
    let start = from + at_most(4294967295, cell(cells, at + 2)) as usize;
    rows.add(name, kind, values(alloc, cells, start, count)?)
}

fn nodes(
    alloc: Global,
    cells: &[u64],
    from: usize,
    start: usize,
    count: u64,
) -> Result<NodeRows, AllocError>
    requires from { from < 2 ^ 50 }
    requires start { start < 2 ^ 49 }
    requires count { count ≤ 65535 }
    ensures { IfOk result (λ rows. rows ≡ nodes_onto cells.now from start 1 count []) }
{
    let mut rows = NodeRows::empty(alloc);
    let mut at = start;
    for earlier in 0..count {
        add_node(alloc, cells, from, at, earlier + 1, &mut rows)?;
        at += 20;
    }
    Ok(rows)
}

/// The lists of one caller's method run.
fn run(
    alloc: Global,
    cells: &[u64],
    start: usize,
    count: u64,
    caller: u32,
) -> Result<ListedRun, AllocError>
    requires start { start < 2 ^ 49 }
    requires count { count ≤ 65535 }
    ensures { IfOk result (λ run. run ≡ run_at cells.now start count caller) }
{
    let place = start + 2 * caller as usize;
    Ok(ListedRun {
        got: flagged(alloc, cells, place + 4, count)?,
        old: flagged(alloc, cells, place + 5, count)?,
    })
}

#[tactic(auto, using(crate::proofs::CellLists::read_on))]
fn runs(
    alloc: Global,
    cells: &[u64],
    start: usize,
    count: u64,
    callers: u32,
) -> Result<Listed<ListedRun>, AllocError>
    requires start { start < 2 ^ 49 }
    requires count { count ≤ 65535 }
    ensures { IfOk result (λ runs. runs ≡ read_list (run_at cells.now start count) 0 1 callers) }
{
    let mut runs = Listed::empty(alloc);
    for caller in 0..callers {
        runs.push(run(alloc, cells, start, count, caller)?)?;
    }
    Ok(runs)
}

fn memory(alloc: Global, cells: &[u64], start: usize, count: u64) -> Result<Memory, AllocError>
    requires start { start < 2 ^ 49 }
    requires count { count ≤ 65535 }
    ensures { IfOk result (λ memory. memory ≡ memory_at cells.now start count) }
{
    let roots = at_most(65535, cell(cells, 1));
    let after = start + 20 * count as usize;
    let from = after + 2 * roots as usize;
    Ok(Memory {
        nodes: nodes(alloc, cells, from, start, count)?,
        roots: values(alloc, cells, after, roots)?,
        retired: flagged(alloc, cells, start + 3, count)?,
    })
}

#[tactic(auto, using(crate::proofs::CellLists::as_many))]
/// The state of cells, for so many callers.
fn snapshot(alloc: Global, text: &Text, callers: u32, cells: &[u64]) -> Result<Snapshot, AllocError>
    ensures is { IfOk result (λ snapshot. snapshot ≡ snapshot_of text.now callers cells.now) }
    ensures callers { IfOk result (λ snapshot. length snapshot.machine.callers ≡ callers) }
    ensures runs { IfOk result (λ snapshot. length snapshot.runs ≡ callers) }
{
    let count = at_most(65535, cell(cells, 0));
    let start = 2 + 41 * callers as usize;
    Ok(Snapshot {
        machine: SourceMachine {
            memory: memory(alloc, cells, start, count)?,
            callers: self::callers(alloc, text, cells, callers)?,
        },
        runs: runs(alloc, cells, start, count, callers)?,
        begun: begun(alloc, cells, callers)?,
    })
}

#[tactic(auto, unfolding(crate::specs::Layout::word_snapshot))]
/// The state that a word stands for, of a run of a text with so many callers.
///
/// # Errors
/// `AllocError` if memory runs out.
pub fn read_snapshot(
    alloc: Global,
    text: &Text,
    callers: u32,
    word: &[u8],
) -> Result<Snapshot, AllocError>
    ensures is { IfOk result (λ snapshot. snapshot ≡ word_snapshot text.now callers word.now) }
    ensures callers { IfOk result (λ snapshot. length snapshot.machine.callers ≡ callers) }
    ensures runs { IfOk result (λ snapshot. length snapshot.runs ≡ callers) }
{
    let cells = cells_of(alloc, word)?;
    snapshot(alloc, text, callers, &cells)
}
