//! What method runs have got, kept beside a state in lists.

ghost use Rattle.std.specs.Prelude.{◌≡◌, option_copied, slice_get, length, [], ◌∷◌, ◌++◌, IfOk};
ghost use Rattle.source_machine.specs.MethodRuns.{run_begun, run_with, MethodRun};
ghost use Rattle.proper_judge.specs.Runs.{run_gained, stand_of};
ghost use Rattle.state_judge.specs.Runs.{ListsRun, ListsRuns, NextOf, placed, Follows};

use norm_lang::list::Listed;
use norm_lang::text::Text;
use proper_judge::{Gain, gain_at, is_in, is_in_wrap_up};
use source_machine::{
    Memory, SourceCaller, SourceEvent, SourceMachine, StepError, mover, step_machine,
};
use std::alloc::{AllocError, Global};

/// The names that a method run has got, and those that were retired before it began, in any order.
#[derive(Drop)]
pub struct ListedRun {
    pub got: Listed<u64>,
    pub old: Listed<u64>,
}

/// The lists of callers none of which has begun.
///
/// # Errors
/// `AllocError` if memory runs out.
pub fn first_runs(alloc: Global, callers: u32) -> Result<Listed<ListedRun>, AllocError>
    ensures holds { IfOk result (λ kept. ListsRuns kept (λ c. record { got = []; old = [] })) }
    ensures many { IfOk result (λ kept. length kept ≡ callers) }
{
    let mut runs = Listed::empty(alloc);
    for _ in 0..callers {
        runs.push(ListedRun {
            got: Listed::empty(alloc),
            old: Listed::empty(alloc),
        })?;
    }
    Ok(runs)
}

/// A run that begins.
fn begun(alloc: Global, memory: &Memory) -> Result<ListedRun, AllocError>
    ensures { IfOk result (λ kept. ListsRun kept (run_begun memory.now)) }
{
    let old = Listed::from_slice(alloc, memory.retired.items())?;
    Ok(ListedRun {
        got: Listed::empty(alloc),
        old,
    })
}

fn copied(alloc: Global, run: &ListedRun) -> Result<ListedRun, AllocError>
    ensures { IfOk result (λ kept. kept ≡ run.now) }
{
    let got = Listed::from_slice(alloc, run.got.items())?;
    let old = Listed::from_slice(alloc, run.old.items())?;
    Ok(ListedRun { got, old })
}

fn with_more(alloc: Global, run: &ListedRun, name: u64) -> Result<ListedRun, AllocError>
    ensures { IfOk result (λ kept. kept ≡ record { got = run.now.got ++ name ∷ []; old = run.now.old }) }
{
    let mut got = Listed::from_slice(alloc, run.got.items())?;
    got.push(name)?;
    let old = Listed::from_slice(alloc, run.old.items())?;
    Ok(ListedRun { got, old })
}

/// A run that gets a name.
fn with_name(alloc: Global, run: &ListedRun, name: u64) -> Result<ListedRun, AllocError>
    ensures { IfOk result (λ kept. (r : MethodRun) → ListsRun run.now r → ListsRun kept (run_with name r)) }
{
    if name == 0 {
        return copied(alloc, run);
    }
    if is_in(name, run.got.items()) {
        return copied(alloc, run);
    }
    with_more(alloc, run, name)
}

/// The run after an event, by what is then in memory and where its caller then stands.
fn gained(
    alloc: Global,
    gain: Gain,
    memory: &Memory,
    caller: Option<&SourceCaller>,
    run: &ListedRun,
) -> Result<ListedRun, AllocError>
    ensures { IfOk result (λ kept. (r : MethodRun) → ListsRun run.now r → ListsRun kept (run_gained gain memory.now (stand_of (option_copied caller.entry)) r)) }
{
    match gain {
        Gain::Begins => begun(alloc, memory),
        Gain::Gets(name) => with_name(alloc, run, name),
        Gain::GetsInside(name) => {
            if is_in_wrap_up(caller) {
                with_name(alloc, run, name)
            } else {
                begun(alloc, memory)
            }
        }
    }
}

fn next_run(
    alloc: Global,
    gain: Gain,
    memory: &Memory,
    caller: Option<&SourceCaller>,
    run: Option<&ListedRun>,
) -> Result<Option<ListedRun>, AllocError>
    ensures { IfOk result (NextOf (option_copied run.entry) (run_gained gain memory.now (stand_of (option_copied caller.entry)))) }
{
    match run {
        None => Ok(None),
        Some(run) => Ok(Some(gained(alloc, gain, memory, caller, run)?)),
    }
}

fn place(runs: &mut Listed<ListedRun>, c: usize, next: Option<ListedRun>)
    ensures { runs.new ≡ placed runs.old c next }
{
    if let Some(run) = next {
        runs.replace(c, run);
    }
}

fn caller_at(machine: &SourceMachine, c: usize) -> Option<&SourceCaller>
    ensures { option_copied result ≡ slice_get machine.now.callers c }
{
    machine.callers.items().get(c)
}

fn run_of(runs: &[ListedRun], c: usize) -> Option<&ListedRun>
    ensures { option_copied result ≡ slice_get runs.now c }
{
    runs.get(c)
}

/// Makes an event of a state, if it is enabled, and follows the method run of its caller.
///
/// # Errors
/// `AllocError` if memory runs out.
pub fn follow_machine(
    alloc: Global,
    text: &Text,
    event: &SourceEvent,
    machine: &mut SourceMachine,
    runs: &mut Listed<ListedRun>,
) -> Result<bool, AllocError>
    ensures { IfOk result (Follows text.now event.now machine.old machine.new runs.old runs.new) }
{
    let gain = gain_at(text, event, machine);
    match step_machine(alloc, text, machine, event) {
        Ok(()) => {}
        Err(StepError::NotEnabled) => return Ok(false),
        Err(StepError::Memory) => return Err(AllocError),
    }
    let c = mover(event) as usize;
    let next = next_run(
        alloc,
        gain,
        &machine.memory,
        caller_at(machine, c),
        run_of(runs.items(), c),
    )?;
    place(runs, c, next);
    Ok(true)
}
