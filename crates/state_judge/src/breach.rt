//! What a state breaks.

ghost use Rattle.std.specs.Prelude.{◌≡◌, option_copied, slice_get, length, Some, IfOk};
ghost use Rattle.source_machine.specs.Proper.{IsOnce, runs_method};
ghost use Rattle.proper_judge.specs.Reach.{targets};
ghost use Rattle.state_judge.specs.Reach.{Found};
ghost use Rattle.state_judge.specs.Breaches.{is_once, FoundOf, ShowsGot, Shows};

use crate::reach::reached;
use crate::runs::ListedRun;
use proper_judge::{Breach, is_in, root_names};
use source_machine::{Memory, SourceCaller, SourceMachine, Stand};
use std::alloc::{AllocError, Global};

/// Whether no name stands in the list twice.
pub fn is_once(names: &[u64]) -> bool
    ensures { result ≡ is_once names.now }
{
    match names.split_first() {
        None => true,
        Some((first, rest)) => !is_in(*first, rest) && is_once(rest),
    }
}

/// Whether a method of the caller runs.
pub fn runs_method(caller: &SourceCaller) -> bool
    ensures { result ≡ runs_method (Some caller.now) }
{
    match &caller.running {
        None => false,
        Some(running) => match &running.stand {
            Stand::InGenerator(_) => true,
            Stand::InList(_, _, made) => *made == 0,
            Stand::InWrapUp(_, _, _) => true,
        },
    }
}

/// A retired name that a root leads to.
fn root_breach(alloc: Global, memory: &Memory) -> Result<Option<u64>, AllocError>
    ensures { IfOk result (Found memory.now (targets memory.now.roots) memory.now.retired) }
{
    let from = root_names(alloc, memory)?;
    reached(alloc, memory, &from, memory.retired.items())
}

/// A name that was retired before the method run of a caller began, and that it leads to.
fn run_breach(
    alloc: Global,
    memory: &Memory,
    caller: &SourceCaller,
    run: Option<&ListedRun>,
) -> Result<Option<u64>, AllocError>
    ensures { IfOk result (FoundOf memory.now caller.now (option_copied run.entry)) }
{
    if !runs_method(caller) {
        return Ok(None);
    }
    match run {
        None => Ok(None),
        Some(run) => reached(alloc, memory, run.got.items(), run.old.items()),
    }
}

/// The first caller of whose method run that holds.
fn got_breach(
    alloc: Global,
    machine: &SourceMachine,
    runs: &[ListedRun],
) -> Result<Option<Breach>, AllocError>
    ensures { IfOk result (ShowsGot machine.now runs.now) }
{
    for (c, caller) in machine.callers.items().iter().enumerate() {
        if let Some(name) = run_breach(alloc, &machine.memory, caller, runs.get(c))? {
            return Ok(Some(Breach::Got { caller: c, name }));
        }
    }
    Ok(None)
}

/// The first of the three conditions that a state breaks.
///
/// # Errors
/// `AllocError` if memory runs out.
pub fn find_breach(
    alloc: Global,
    machine: &SourceMachine,
    runs: &[ListedRun],
) -> Result<Option<Breach>, AllocError>
    requires { length runs.now ≡ length machine.now.callers }
    ensures { IfOk result (Shows machine.now runs.now) }
{
    if !is_once(machine.memory.retired.items()) {
        return Ok(Some(Breach::Twice));
    }
    if let Some(name) = root_breach(alloc, &machine.memory)? {
        return Ok(Some(Breach::Root { name }));
    }
    got_breach(alloc, machine, runs)
}
