//! How a node is come to: for a message.

ghost use Rattle.std.specs.Prelude.{◌≤◌, ◌≡◌, length, IfOk};
ghost use Rattle.source_machine.specs.Calls.{IsOfSourceRun};

use crate::breach::Breach;
use crate::event::judge_event;
use crate::judging::first_kept;
use crate::runs::KeptRun;
use norm_check::Normal;
use norm_lang::list::Listed;
use source_machine::{Memory, SourceEvent, SourceState, Value};
use std::alloc::{AllocError, Global};
use std::collections::BTreeMap;

/// A state, and how a node of it is come to.
#[derive(Drop)]
pub struct Trace {
    pub state: SourceState,
    /// The place of the root that leads there, if one does.
    pub root: Option<usize>,
    /// The names on the way from there, or from what a method run has got, to the node's own; none if there is no way.
    pub names: Listed<u64>,
}

/// The names that a search has come to, in order, and from which other name.
#[derive(Drop)]
struct Finds {
    from: BTreeMap<u64, u64>,
    names: Vec<u64>,
}

/// Adds a name, unless it is there.
fn add(finds: &mut Finds, name: u64, from: u64) -> Result<(), AllocError> {
    if finds.from.contains_key(&name) {
        return Ok(());
    }
    finds.from.insert(name, from)?;
    finds.names.push(name)?;
    Ok(())
}

/// Adds the names to which a node's fields refer.
fn add_next(finds: &mut Finds, memory: &Memory, name: u64) -> Result<(), AllocError> {
    match memory.nodes.fields(name) {
        None => Ok(()),
        Some(values) => add_values(finds, values.items(), name),
    }
}

fn add_values(finds: &mut Finds, values: &[Value], name: u64) -> Result<(), AllocError> {
    for value in values {
        if let Value::Node(reference) = *value {
            add(finds, reference.node, name)?;
        }
    }
    Ok(())
}

/// The way back from a name to the first that was found.
fn way(alloc: Global, finds: &Finds, to: u64) -> Result<Listed<u64>, AllocError> {
    let mut names = Vec::new(alloc);
    let mut name = to;
    names.push(name)?;
    for _ in 0..finds.names.len() {
        match finds.from.get(&name).copied() {
            None => break,
            Some(from) if from == name => break,
            Some(from) => {
                name = from;
                names.push(name)?;
            }
        }
    }
    names.reverse();
    Ok(Listed::from_vec(names))
}

/// A shortest way from one name to another; no names if there is none.
fn way_between(
    alloc: Global,
    memory: &Memory,
    from: u64,
    to: u64,
) -> Result<Listed<u64>, AllocError> {
    let mut finds = Finds {
        from: BTreeMap::new(alloc),
        names: Vec::new(alloc),
    };
    add(&mut finds, from, from)?;
    for at in 0..usize::MAX {
        match finds.names.get(at).copied() {
            None => break,
            Some(name) if name == to => return way(alloc, &finds, to),
            Some(name) => add_next(&mut finds, memory, name)?,
        }
    }
    Ok(Listed::empty(alloc))
}

/// The first root that leads to a name, and the way from there.
fn way_from_root(alloc: Global, state: SourceState, name: u64) -> Result<Trace, AllocError> {
    for root in 0..state.machine().memory.roots.items().len() {
        if let Some(Value::Node(reference)) = state
            .machine()
            .memory
            .roots
            .items()
            .get(root)
            .copied()
        {
            let names = way_between(alloc, &state.machine().memory, reference.node, name)?;
            if !names.items().is_empty() {
                return Ok(Trace {
                    state,
                    root: Some(root),
                    names,
                });
            }
        }
    }
    Ok(Trace {
        state,
        root: None,
        names: Listed::empty(alloc),
    })
}

/// The way to a name from the first of these that leads there.
fn way_from(
    alloc: Global,
    memory: &Memory,
    got: &[u64],
    name: u64,
) -> Result<Listed<u64>, AllocError> {
    for from in got {
        let names = way_between(alloc, memory, *from, name)?;
        if !names.items().is_empty() {
            return Ok(names);
        }
    }
    Ok(Listed::empty(alloc))
}

/// The way to a name from what a method run has got.
fn way_from_got(
    alloc: Global,
    state: SourceState,
    run: Option<&KeptRun>,
    name: u64,
) -> Result<Trace, AllocError> {
    let names = match run {
        None => Listed::empty(alloc),
        Some(run) => way_from(alloc, &state.machine().memory, run.got.items(), name)?,
    };
    Ok(Trace {
        state,
        root: None,
        names,
    })
}

/// The name that was retired last.
fn last_retired(alloc: Global, state: SourceState) -> Result<Trace, AllocError> {
    let names = match state.machine().memory.retired.items().last() {
        None => Listed::empty(alloc),
        Some(name) => Listed::from_slice(alloc, &[*name])?,
    };
    Ok(Trace {
        state,
        root: None,
        names,
    })
}

/// How the node of a breach is come to, in the state after the event at a place. No clause says that the way is right: no verdict rests on it.
///
/// # Errors
/// `AllocError` if memory runs out.
pub fn trace_breach(
    alloc: Global,
    normal: &Normal,
    callers: u32,
    events: &[SourceEvent],
    at: u64,
    breach: Breach,
) -> Result<Trace, AllocError>
    requires { 1 ≤ callers }
{
    let mut state = SourceState::start(alloc, normal, callers)?;
    let mut kept = first_kept(alloc, callers)?;
    for (place, event) in events.iter().enumerate() {
        if place as u64 > at {
            break;
        }
        judge_event(alloc, normal, event, &mut state, &mut kept)?;
    }
    match breach {
        Breach::Twice => last_retired(alloc, state),
        Breach::Root { name } => way_from_root(alloc, state, name),
        Breach::Got { caller, name } => { way_from_got(alloc, state, kept.runs.get(caller), name) }
    }
}
