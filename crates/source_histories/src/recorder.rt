//! What is written down along a run.

ghost use Rattle.std.specs.Prelude.{◌≡◌, ◌<◌, ◌≤◌, [], length, slice_get, slice_index_or, replicate, OnOk, IfOk};
ghost use Rattle.source_machine.specs.State.{source_start};
ghost use Rattle.source_machine.specs.Run.{mover};
ghost use Rattle.source_machine.specs.Calls.{IsOfSourceRun};
ghost use Rattle.source_histories.specs.Deeds.{deeds_in};
ghost use Rattle.source_histories.specs.Books.{no_notes};
ghost use Rattle.source_histories.specs.Reading.{notes_before, noted_from, filled_in, IsWritten, IsFollowed, Records};

use crate::deed::{Deed, Noted, Notes};
use crate::reader::{Before, Reader, look_before, seen_after};
use norm_check::Normal;
use norm_lang::list::Listed;
use source_machine::{RunError, SourceEvent, SourceState, StepError, mover, step};
use std::alloc::{AllocError, Global};

fn notes_of(notes: &Listed<Notes>, caller: u32) -> Notes
    ensures { result ≡ slice_index_or notes.now caller no_notes }
{
    notes
        .items()
        .get(caller as usize)
        .copied()
        .unwrap_or(Notes { gap: 0, load: 0 })
}

/// What is remembered of an event's caller. At a Begin that is nothing of its earlier calls.
fn notes_for(notes: &Listed<Notes>, event: &SourceEvent, at: u64, caller: u32) -> Notes
    ensures { result ≡ notes_before event.now at (slice_index_or notes.now caller no_notes) }
{
    match event {
        SourceEvent::Begin { .. } => Notes { gap: at, load: at },
        SourceEvent::Access { .. } => notes_of(notes, caller),
        SourceEvent::Restart { .. } => notes_of(notes, caller),
        SourceEvent::GiveUp { .. } => notes_of(notes, caller),
    }
}

/// So many callers of whom nothing is remembered.
fn first_notes(alloc: Global, callers: u32) -> Result<Listed<Notes>, AllocError>
    ensures { IfOk result (λ notes. notes ≡ replicate callers no_notes) }
{
    let mut notes = Listed::empty(alloc);
    for _ in 0..callers {
        notes.push(Notes { gap: 0, load: 0 })?;
    }
    Ok(notes)
}

fn told<R: Reader>(
    reader: &R,
    state: &SourceState,
    at: u64,
    caller: u32,
    before: Option<Before>,
    notes: Notes,
) -> Noted
    requires { caller < length state.now.callers }
    ensures { result ≡ noted_from (R.rules reader.now) at caller notes before (slice_get state.now.callers caller) }
{
    match before {
        None => Noted { notes, deed: None },
        Some(before) => reader.noted(at, caller, notes, &seen_after(state, caller, before)),
    }
}

/// Writes a deed into the slot of its moment.
fn fill(slots: &mut Listed<Option<Deed>>, deed: Option<Deed>)
    ensures { slots.new ≡ filled_in deed slots.old }
{
    match deed {
        None => {}
        Some(deed) => slots.replace(deed.moment as usize, Some(deed)),
    }
}

/// The deeds among the slots, in order.
fn deeds_of(alloc: Global, slots: &[Option<Deed>]) -> Result<Listed<Deed>, AllocError>
    ensures { IfOk result (λ deeds. deeds ≡ deeds_in slots.now) }
{
    let mut deeds = Listed::empty(alloc);
    for slot in slots {
        if let Some(deed) = slot {
            deeds.push(*deed)?;
        }
    }
    Ok(deeds)
}

/// Makes an event, and writes down what it tells.
fn follow<R: Reader>(
    alloc: Global,
    reader: &R,
    normal: &Normal,
    callers: u32,
    state: &mut SourceState,
    slots: &mut Listed<Option<Deed>>,
    notes: &mut Listed<Notes>,
    at: u64,
    event: &SourceEvent,
) -> Result<(), StepError>
    requires run { IsOfSourceRun normal.now state.old }
    requires many { length state.old.callers ≡ callers }
    ensures follows { IsFollowed normal.now state.old event.now state.new result }
    ensures run { IsOfSourceRun normal.now state.new }
    ensures many { length state.new.callers ≡ callers }
    ensures written { OnOk result (mover event.now < callers → IsWritten (R.rules reader.now) at event.now state.old state.new slots.old slots.new notes.old notes.new) }
{
    let caller = mover(event);
    let before = look_before(state, callers, event);
    step(alloc, state, normal, event)?;
    slots.push(None)?;
    if caller < callers {
        let noted = told(
            reader,
            state,
            at,
            caller,
            before,
            notes_for(notes, event, at, caller),
        );
        notes.replace(caller as usize, noted.notes);
        fill(slots, noted.deed);
    }
    Ok(())
}

/// The deeds of the calls of a run, in the order of their moments, with what is written down from its start on.
fn record_from<R: Reader>(
    alloc: Global,
    reader: &R,
    normal: &Normal,
    callers: u32,
    events: &[SourceEvent],
    state: &mut SourceState,
    slots: &mut Listed<Option<Deed>>,
    notes: &mut Listed<Notes>,
) -> Result<Listed<Deed>, RunError>
    requires some { 1 ≤ callers }
    requires start { state.old ≡ source_start normal.now callers }
    requires run { IsOfSourceRun normal.now state.old }
    requires many { length state.old.callers ≡ callers }
    requires empty { slots.old ≡ [] }
    requires blank { notes.old ≡ replicate callers no_notes }
    ensures { Records normal.now (R.rules reader.now) callers events.now result }
{
    for (at, event) in events.iter().enumerate() {
        match follow(
            alloc, reader, normal, callers, state, slots, notes, at as u64, event,
        ) {
            Ok(()) => {}
            Err(StepError::Memory) => return Err(RunError::Memory),
            Err(StepError::NotEnabled) => return Err(RunError::NotEnabled { at: at as u64 }),
        }
    }
    let deeds = deeds_of(alloc, slots.items())?;
    Ok(deeds)
}

/// The same from the start alone, when nothing is written down yet.
fn record_at<R: Reader>(
    alloc: Global,
    reader: &R,
    normal: &Normal,
    callers: u32,
    events: &[SourceEvent],
    state: &mut SourceState,
) -> Result<Listed<Deed>, RunError>
    requires some { 1 ≤ callers }
    requires start { state.old ≡ source_start normal.now callers }
    requires run { IsOfSourceRun normal.now state.old }
    requires many { length state.old.callers ≡ callers }
    ensures { Records normal.now (R.rules reader.now) callers events.now result }
{
    let mut notes = first_notes(alloc, callers)?;
    let mut slots = Listed::empty(alloc);
    record_from(
        alloc, reader, normal, callers, events, state, &mut slots, &mut notes,
    )
}

/// The deeds of the calls of a run, in the order of their moments.
///
/// # Errors
/// `NotEnabled` with the place of the first event that isn't enabled, and `Memory` if memory runs out.
pub fn record<R: Reader>(
    alloc: Global,
    reader: &R,
    normal: &Normal,
    callers: u32,
    events: &[SourceEvent],
) -> Result<Listed<Deed>, RunError>
    requires some { 1 ≤ callers }
    ensures { Records normal.now (R.rules reader.now) callers events.now result }
{
    let mut state = SourceState::start(alloc, normal, callers)?;
    record_at(alloc, reader, normal, callers, events, &mut state)
}
