//! The source machine's calls.

ghost use Rattle.std.specs.Prelude.{◌≡◌, ◌≤◌, length, OnOk, OnErr, IfOk};
ghost use Rattle.source_machine.specs.State.{source_start};
ghost use Rattle.source_machine.specs.Calls.{IsOfSourceRun, Steps, MakesEvents, RunsTo};

use crate::callers::Callers;
use crate::error::{RunError, StepError};
use crate::event::SourceEvent;
use crate::memory::first_memory;
use crate::state::SourceMachine;
use crate::steps::step_machine;
use norm_check::Normal;
use norm_lang::text::Text;
use std::alloc::{AllocError, Global};
use std::marker::Model;

/// A state of the source machine: nodes by their names, roots, the retired names in the order of retirement, and the
/// callers. Contracts see it as that state. A step takes no longer than a search by name does.
#[derive(Drop)]
pub struct SourceState {
    pub(crate) machine: SourceMachine,
}

impl Model for SourceState {
    ghost use Rattle.source_machine.specs.declared.state.SourceMachine.{SourceMachine};

    ghost Value = { SourceMachine };

    ghost view = { λ s. s.machine };
}

/// The machine at the start of a text, with so many idle callers.
fn first_machine(alloc: Global, text: &Text, callers: u32) -> Result<SourceMachine, AllocError>
    ensures { IfOk result (λ machine. machine ≡ source_start text.now callers) }
{
    Ok(SourceMachine {
        memory: first_memory(alloc, text)?,
        callers: Callers::idle(alloc, callers)?,
    })
}

impl SourceState {
    /// The start of a text: its initial nodes and roots, and so many idle callers, at least one.
    ///
    /// # Errors
    /// `AllocError` if memory runs out.
    pub fn start(alloc: Global, normal: &Normal, callers: u32) -> Result<SourceState, AllocError>
        requires some { 1 ≤ callers }
        ensures starts { IfOk result (λ s. s ≡ source_start normal.now callers) }
        ensures runs { IfOk result (λ s. IsOfSourceRun normal.now s) }
        ensures callers { IfOk result (λ s. length s.callers ≡ callers) }
    {
        let machine = first_machine(alloc, normal.text(), callers)?;
        Ok(SourceState { machine })
    }

    /// The state's parts, to read.
    pub fn machine(&self) -> &SourceMachine
        ensures { result.now ≡ self.now }
    {
        &self.machine
    }
}

/// Makes an event: the pending access of a caller, or the beginning or end of its method or operation. The state is one of a
/// run of the text.
///
/// # Errors
/// `NotEnabled` exactly if the event isn't enabled in the state, and `Memory` if memory runs out. The state is then
/// unchanged.
pub fn step(
    alloc: Global,
    state: &mut SourceState,
    normal: &Normal,
    event: &SourceEvent,
) -> Result<(), StepError>
    requires { IsOfSourceRun normal.now state.old }
    ensures steps { Steps normal.now state.old event.now state.new result }
    ensures runs { IsOfSourceRun normal.now state.new }
    ensures callers { length state.new.callers ≡ length state.old.callers }
{
    step_machine(alloc, normal.text(), &mut state.machine, event)
}

/// Makes events one after another, each enabled in the state that those before it leave.
fn make_events(
    alloc: Global,
    state: &mut SourceState,
    normal: &Normal,
    events: &[SourceEvent],
) -> Result<(), RunError>
    requires { IsOfSourceRun normal.now state.old }
    ensures { MakesEvents normal.now state.old events.now state.new result }
{
    for (at, event) in events.iter().enumerate() {
        match step(alloc, state, normal, event) {
            Ok(()) => {}
            Err(StepError::Memory) => return Err(RunError::Memory),
            Err(StepError::NotEnabled) => return Err(RunError::NotEnabled { at: at as u64 }),
        }
    }
    Ok(())
}

/// The state after a list of events, each enabled in the state that those before it leave, from the start of idle callers, at
/// least one.
///
/// # Errors
/// `NotEnabled` with the place of the first event that isn't enabled, and `Memory` if memory runs out.
#[tactic(auto, using(crate::proofs::Calling::starts, crate::proofs::Calling::runs_from, crate::proofs::Calling::stops_from, crate::proofs::Calling::of_run, crate::proofs::Calling::as_many))]
pub fn run(
    alloc: Global,
    normal: &Normal,
    callers: u32,
    events: &[SourceEvent],
) -> Result<SourceState, RunError>
    requires some { 1 ≤ callers }
    ensures answers { RunsTo normal.now callers events.now result }
    ensures runs { IfOk result (λ s. IsOfSourceRun normal.now s) }
    ensures callers { IfOk result (λ s. length s.callers ≡ callers) }
{
    let mut state = SourceState::start(alloc, normal, callers)?;
    match make_events(alloc, &mut state, normal, events) {
        Ok(()) => Ok(state),
        Err(e) => Err(e),
    }
}
