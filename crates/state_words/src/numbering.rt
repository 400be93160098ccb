//! The names that matter in a state, in the order of their numbers from 1: what roots refer to; for each caller what its references, those
//! of its wrap-up's start, and what its method run has got; then what the fields of these nodes refer to. No clause says so: whoever
//! uses an order tests what it finds with it.

use norm_lang::registers::Reference;
use proper_judge::is_in;
use source_machine::{Memory, Running, SourceCaller, SourceMachine, Stand, Value};
use state_judge::{ListedRun, runs_method};
use std::alloc::{AllocError, Global};

fn add_name(name: u64, order: &mut Vec<u64>) -> Result<(), AllocError> {
    if name == 0 || is_in(name, order) {
        return Ok(());
    }
    order.push(name)?;
    Ok(())
}

fn add_values(values: &[Value], order: &mut Vec<u64>) -> Result<(), AllocError> {
    for value in values {
        if let Value::Node(reference) = *value {
            add_name(reference.node, order)?;
        }
    }
    Ok(())
}

fn add_references(references: &[Reference], order: &mut Vec<u64>) -> Result<(), AllocError> {
    for reference in references {
        add_name(reference.node, order)?;
    }
    Ok(())
}

fn add_names(names: &[u64], order: &mut Vec<u64>) -> Result<(), AllocError> {
    for name in names {
        add_name(*name, order)?;
    }
    Ok(())
}

fn add_running(running: &Running, order: &mut Vec<u64>) -> Result<(), AllocError> {
    add_references(&running.registers.references, order)?;
    if let Stand::InWrapUp(_, started, _) = &running.stand {
        add_references(&started.references, order)?;
    }
    Ok(())
}

fn add_caller(
    caller: &SourceCaller,
    run: Option<&ListedRun>,
    order: &mut Vec<u64>,
) -> Result<(), AllocError> {
    if let Some(running) = &caller.running {
        add_running(running, order)?;
    }
    match run {
        Some(run) if runs_method(caller) => add_names(run.got.items(), order),
        _ => Ok(()),
    }
}

/// Adds what is reached from the names of an order, which then has at most one for each node.
fn add_reached(memory: &Memory, order: &mut Vec<u64>) -> Result<(), AllocError> {
    for place in 0..memory.nodes.rows().len() {
        let name = order.get(place).copied().unwrap_or(0);
        if let Some(values) = memory.nodes.fields(name) {
            add_values(values.items(), order)?;
        }
    }
    Ok(())
}

/// The names that matter in a state, in the order of their numbers.
///
/// # Errors
/// `AllocError` if memory runs out.
pub fn order_of(
    alloc: Global,
    machine: &SourceMachine,
    runs: &[ListedRun],
) -> Result<Vec<u64>, AllocError> {
    let mut order = Vec::new(alloc);
    add_values(machine.memory.roots.items(), &mut order)?;
    for (c, caller) in machine.callers.items().iter().enumerate() {
        add_caller(caller, runs.get(c), &mut order)?;
    }
    add_reached(&machine.memory, &mut order)?;
    Ok(order)
}
