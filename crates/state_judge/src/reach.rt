//! What names reach.

ghost use Rattle.std.specs.Prelude.{◌≡◌, OnOk, IfOk};
ghost use Rattle.proper_judge.specs.Reach.{without};
ghost use Rattle.state_judge.specs.Reach.{Found, names_of, more_work};

use proper_judge::{add_targets, is_in};
use source_machine::{Memory, NamedNode};
use std::alloc::{AllocError, Global};

/// The names of nodes.
fn names(alloc: Global, nodes: &[NamedNode]) -> Result<Vec<u64>, AllocError>
    ensures { IfOk result (λ names. names.items ≡ names_of nodes.now) }
{
    let mut names = Vec::new(alloc);
    for node in nodes {
        names.push(node.name)?;
    }
    Ok(names)
}

/// The names without one.
fn dropped(rest: Vec<u64>, name: u64) -> Vec<u64>
    ensures { result.items ≡ without name rest.items }
{
    let mut rest = rest;
    rest.retain(|it| *it != name);
    rest
}

/// Goes on from a name, unless that was done before.
fn visit(memory: &Memory, name: u64, rest: &[u64], work: &mut Vec<u64>) -> Result<(), AllocError>
    ensures { OnOk result (work.new.items ≡ more_work memory.now name rest.now work.old.items) }
{
    if !is_in(name, rest) {
        return Ok(());
    }
    match memory.nodes.fields(name) {
        None => Ok(()),
        Some(values) => add_targets(values.items(), work),
    }
}

/// A name among `bad` that one of `from` reaches.
///
/// # Errors
/// `AllocError` if memory runs out.
pub(crate) fn reached(
    alloc: Global,
    memory: &Memory,
    from: &[u64],
    bad: &[u64],
) -> Result<Option<u64>, AllocError>
    ensures { IfOk result (λ found. Found memory.now from.now bad.now found) }
{
    let mut rest = names(alloc, memory.nodes.rows())?;
    let mut work = Vec::from_slice(alloc, from)?;
    'search: while let Some(name) = work.pop() {
        if is_in(name, bad) {
            return Ok(Some(name));
        }
        visit(memory, name, &rest, &mut work)?;
        rest = dropped(rest, name);
    }
    Ok(None)
}
