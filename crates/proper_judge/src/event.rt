//! Judging one event.

ghost use Rattle.std.specs.Prelude.{◌≡◌, ℕ, length, IfOk, OnOk};
ghost use Rattle.source_machine.specs.Calls.{IsOfSourceRun};
ghost use Rattle.proper_judge.specs.Numbers.{numbering, is_second, with_retirement};
ghost use Rattle.proper_judge.specs.Events.{is_made, breach_of, IsEffect, doubts_of, Settles, JudgesEvent};

use crate::breach::{Breach, Doubts, find_breach};
use crate::changes::{is_calm, is_field_change, planned_change, retired_by};
use crate::marks::Marks;
use crate::numbers::Numbers;
use crate::runs::{Gain, KeptRun, follow, gain_at};
use norm_check::Normal;
use norm_lang::text::Text;
use source_machine::{Change, SourceEvent, SourceMachine, SourceState, StepError, mover, step};
use std::alloc::{AllocError, Global};

/// What is kept beside a run: the method runs of the callers, the number of each name's first retirement, from 1, and marks for searches.
#[derive(Drop)]
pub(crate) struct Kept {
    pub(crate) runs: Vec<KeptRun>,
    pub(crate) retirements: Numbers,
    pub(crate) marks: Marks,
}

/// What an event is to do: what it changes, whether all that it makes references to leads to no retired node, and what its caller's
/// method run gains.
#[derive(Clone, Copy)]
pub(crate) struct Effect {
    pub(crate) change: Change,
    pub(crate) calm: bool,
    pub(crate) gain: Gain,
}

/// What became of an event: it isn't enabled, or it was made, and the state after it breaks this or nothing.
#[derive(Clone, Copy)]
pub(crate) enum Told {
    NotEnabled,
    Made(Option<Breach>),
}

/// Whether the event was made.
pub(crate) fn is_made(told: Told) -> bool
    ensures { result ≡ is_made told }
{
    match told {
        Told::NotEnabled => false,
        Told::Made(_) => true,
    }
}

/// What the state after it breaks.
pub(crate) fn breach_of(told: Told) -> Option<Breach>
    ensures { result ≡ breach_of told }
{
    match told {
        Told::NotEnabled => None,
        Told::Made(found) => found,
    }
}

/// What an event is to do in a state.
fn effect_of(
    alloc: Global,
    text: &Text,
    event: &SourceEvent,
    machine: &SourceMachine,
    retirements: &Numbers,
    marks: &mut Marks,
) -> Result<Effect, AllocError>
    ensures { IfOk result (IsEffect text.now event.now machine.now (numbering retirements.now)) }
{
    let change = planned_change(text, event, machine);
    Ok(Effect {
        change,
        calm: is_calm(alloc, &machine.memory, change, retirements, marks)?,
        gain: gain_at(text, event, machine),
    })
}

/// Numbers a name's retirement, the last of so many, and tells whether it is a second one; null is retired by none.
fn retire(retirements: &mut Numbers, name: u64, count: usize) -> Result<bool, AllocError>
    ensures second { IfOk result (λ second. second ≡ is_second (numbering retirements.old) name) }
    ensures numbers { OnOk result ((other : ℕ) → numbering retirements.new other ≡ with_retirement (numbering retirements.old) name count other) }
{
    if name == 0 {
        return Ok(false);
    }
    if retirements.get(name) != 0 {
        return Ok(true);
    }
    retirements.set(name, count as u64)?;
    Ok(false)
}

/// What may be broken after an event.
fn doubts_of(effect: Effect, twice: bool) -> Doubts
    ensures { result ≡ doubts_of effect twice }
{
    Doubts {
        twice,
        roots: !effect.calm || retired_by(effect.change) != 0,
        runs: !effect.calm && is_field_change(effect.change),
    }
}

/// Keeps what an event did, and finds what the state after it breaks.
fn settle(
    alloc: Global,
    machine: &SourceMachine,
    c: usize,
    effect: Effect,
    kept: &mut Kept,
) -> Result<Option<Breach>, AllocError>
    ensures { IfOk result (Settles machine.now c effect kept.old kept.new) }
{
    let count = machine.memory.retired.items().len();
    let twice = retire(&mut kept.retirements, retired_by(effect.change), count)?;
    let added = follow(alloc, effect.gain, machine, c, &mut kept.runs)?;
    find_breach(
        alloc,
        machine,
        doubts_of(effect, twice),
        (c, added),
        &kept.runs,
        &kept.retirements,
        &mut kept.marks,
    )
}

/// Makes an event, if it is enabled, and finds what the state after it breaks, if that before it was proper.
///
/// # Errors
/// `AllocError` if memory runs out.
pub(crate) fn judge_event(
    alloc: Global,
    normal: &Normal,
    event: &SourceEvent,
    state: &mut SourceState,
    kept: &mut Kept,
) -> Result<Told, AllocError>
    requires { IsOfSourceRun normal.now state.old }
    ensures judges { IfOk result (JudgesEvent normal.now event.now state.old state.new kept.old kept.new) }
    ensures runs { IsOfSourceRun normal.now state.new }
    ensures callers { length state.new.callers ≡ length state.old.callers }
{
    let effect = effect_of(
        alloc,
        normal.text(),
        event,
        state.machine(),
        &kept.retirements,
        &mut kept.marks,
    )?;
    match step(alloc, state, normal, event) {
        Ok(()) => {}
        Err(StepError::NotEnabled) => return Ok(Told::NotEnabled),
        Err(StepError::Memory) => return Err(AllocError),
    }
    let found = settle(alloc, state.machine(), mover(event) as usize, effect, kept)?;
    Ok(Told::Made(found))
}
