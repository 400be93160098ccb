//! Words of states. No clause says that a word stands for its state: whoever writes one reads it again, and tests what it stands for.

use norm_lang::registers::{Reference, Registers};
use proper_judge::is_in;
use source_machine::{NamedNode, Running, SourceCaller, SourceMachine, Stand, Value};
use state_judge::{ListedRun, runs_method};
use std::alloc::{AllocError, Global};

/// Bytes, and zeros that have no byte yet.
#[derive(Drop)]
struct Writer {
    bytes: Vec<u8>,
    zeros: u8,
}

/// Writes the zeros that have no byte yet, at most 64.
fn put_zeros(writer: &mut Writer) -> Result<(), AllocError> {
    if 0 < writer.zeros && writer.zeros <= 64 {
        writer.bytes.push(127 + writer.zeros)?;
    }
    writer.zeros = 0;
    Ok(())
}

/// Writes the digits above the last seven bits of a number, from the first that isn't 0 on.
fn put_high(high: u64, writer: &mut Writer) -> Result<(), AllocError> {
    for digit in 0..10u32 {
        let rest = high >> (54 - 6 * digit);
        if rest != 0 {
            writer.bytes.push(192 + (rest % 64) as u8)?;
        }
    }
    Ok(())
}

fn put(number: u64, writer: &mut Writer) -> Result<(), AllocError> {
    if number != 0 {
        put_zeros(writer)?;
        put_high(number / 128, writer)?;
        writer.bytes.push((number % 128) as u8)?;
        return Ok(());
    }
    if writer.zeros >= 64 {
        put_zeros(writer)?;
    }
    if writer.zeros < 64 {
        writer.zeros += 1;
    }
    Ok(())
}

fn put_all(numbers: &[u64], writer: &mut Writer) -> Result<(), AllocError> {
    for number in numbers {
        put(*number, writer)?;
    }
    Ok(())
}

/// The place of a name in an order, from 1; 0 for null.
fn number(name: u64, order: &[u64]) -> u64 {
    match order.iter().position(|it| *it == name) {
        None => 0,
        Some(place) => place as u64 + 1,
    }
}

fn reference_cell(reference: Reference, order: &[u64]) -> u64 {
    let mark = if reference.marked { 1 } else { 0 };
    number(reference.node, order)
        .wrapping_mul(2)
        .wrapping_add(mark)
}

fn put_registers(
    registers: &Registers,
    order: &[u64],
    writer: &mut Writer,
) -> Result<(), AllocError> {
    put_all(&registers.numbers, writer)?;
    for reference in &registers.references {
        put(reference_cell(*reference, order), writer)?;
    }
    Ok(())
}

fn put_value(value: Value, order: &[u64], writer: &mut Writer) -> Result<(), AllocError> {
    match value {
        Value::Number(number) => {
            put(0, writer)?;
            put(number, writer)
        }
        Value::Node(reference) => {
            put(1, writer)?;
            put(reference_cell(reference, order), writer)
        }
    }
}

fn put_values(values: &[Value], order: &[u64], writer: &mut Writer) -> Result<(), AllocError> {
    for value in values {
        put_value(*value, order, writer)?;
    }
    Ok(())
}

/// The tag of where an operation stands, its place, and what stands beside that.
fn stand_cells(stand: &Stand) -> (u64, u64, u64) {
    match stand {
        Stand::InGenerator(at) => (1, *at as u64, 0),
        Stand::InList(at, _, made) => (2, *at as u64, *made as u64),
        Stand::InWrapUp(at, _, accessed) => (3, *at as u64, if *accessed { 1 } else { 0 }),
    }
}

fn put_running(running: &Running, order: &[u64], writer: &mut Writer) -> Result<(), AllocError> {
    let (tag, place, more) = stand_cells(&running.stand);
    put(tag, writer)?;
    put(running.op as u64, writer)?;
    put_all(&running.args, writer)?;
    put(place, writer)?;
    put(more, writer)?;
    put_registers(&running.registers, order, writer)?;
    match &running.stand {
        Stand::InWrapUp(_, started, _) => put_registers(started, order, writer),
        _ => put_all(&[0; 16], writer),
    }
}

fn put_caller(
    caller: &SourceCaller,
    begun: usize,
    order: &[u64],
    writer: &mut Writer,
) -> Result<(), AllocError> {
    put(begun as u64, writer)?;
    match &caller.running {
        None => put_all(&[0; 40], writer),
        Some(running) => put_running(running, order, writer),
    }
}

fn put_callers(
    callers: &[SourceCaller],
    begun: &[usize],
    order: &[u64],
    writer: &mut Writer,
) -> Result<(), AllocError> {
    for (c, caller) in callers.iter().enumerate() {
        let begun = begun.get(c).copied().unwrap_or(0);
        put_caller(caller, begun, order, writer)?;
    }
    Ok(())
}

/// The number of a flag.
fn flag(is: bool) -> u64 {
    if is { 1 } else { 0 }
}

/// Whether a method run has got a name, and whether that was retired before; nothing of a caller that runs no method.
fn put_run_flags(
    name: u64,
    caller: Option<&SourceCaller>,
    run: Option<&ListedRun>,
    writer: &mut Writer,
) -> Result<(), AllocError> {
    match (caller, run) {
        (Some(caller), Some(run)) if runs_method(caller) => {
            put(flag(is_in(name, run.got.items())), writer)?;
            put(flag(is_in(name, run.old.items())), writer)
        }
        _ => put_all(&[0; 2], writer),
    }
}

fn node_named(nodes: &[NamedNode], name: u64) -> Option<&NamedNode> {
    nodes.iter().find(|node| node.name == name)
}

/// The block of a node, whose values begin at a place; the count of its values.
fn put_node(
    machine: &SourceMachine,
    runs: &[ListedRun],
    name: u64,
    start: u64,
    writer: &mut Writer,
) -> Result<u64, AllocError> {
    let mut count = 0;
    let mut kind = 0;
    if let Some(node) = node_named(machine.memory.nodes.rows(), name) {
        count = node.values.items().len() as u64;
        kind = node.kind as u64;
    }
    put(kind, writer)?;
    put(count, writer)?;
    put(start, writer)?;
    put(flag(is_in(name, machine.memory.retired.items())), writer)?;
    for c in 0..8 {
        let caller = machine.callers.items().get(c);
        put_run_flags(name, caller, runs.get(c), writer)?;
    }
    Ok(count)
}

fn put_nodes(
    machine: &SourceMachine,
    runs: &[ListedRun],
    order: &[u64],
    writer: &mut Writer,
) -> Result<(), AllocError> {
    let mut start = 0;
    for name in order {
        let count = put_node(machine, runs, *name, start, writer)?;
        start = start.wrapping_add(count.wrapping_mul(2));
    }
    Ok(())
}

fn put_fields(
    machine: &SourceMachine,
    order: &[u64],
    writer: &mut Writer,
) -> Result<(), AllocError> {
    for name in order {
        if let Some(values) = machine.memory.nodes.fields(*name) {
            put_values(values.items(), order, writer)?;
        }
    }
    Ok(())
}

/// The word of a state, under the numbers of an order.
///
/// # Errors
/// `AllocError` if memory runs out.
pub fn word_of(
    alloc: Global,
    order: &[u64],
    machine: &SourceMachine,
    runs: &[ListedRun],
    begun: &[usize],
) -> Result<Vec<u8>, AllocError> {
    let mut writer = Writer {
        bytes: Vec::new(alloc),
        zeros: 0,
    };
    let roots = machine.memory.roots.items();
    put(order.len() as u64, &mut writer)?;
    put(roots.len() as u64, &mut writer)?;
    put_callers(machine.callers.items(), begun, order, &mut writer)?;
    put_nodes(machine, runs, order, &mut writer)?;
    put_values(roots, order, &mut writer)?;
    put_fields(machine, order, &mut writer)?;
    let Writer { bytes, .. } = writer;
    Ok(bytes)
}
