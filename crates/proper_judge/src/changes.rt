//! What an event is to change in memory, and whether all that it makes references to leads to no retired node.

ghost use Rattle.std.specs.Prelude.{◌≡◌, ◌∷◌, [], length, slice_get, IfOk};
ghost use Rattle.source_machine.specs.Plans.{plan_access, plan_entry, plan_of};
ghost use Rattle.source_machine.specs.Run.{mover};
ghost use Rattle.source_machine.specs.Step.{performed};
ghost use Rattle.proper_judge.specs.Numbers.{numbering, is_among};
ghost use Rattle.proper_judge.specs.Changes.{planned_change, is_field_change, retired_by, IsCalm, is_root_site, IsFineIf};

use crate::marks::Marks;
use crate::numbers::Numbers;
use crate::reach::{reached, root_names};
use norm_lang::local::instruction_at;
use norm_lang::text::{Entries, Op, Text};
use source_machine::{
    Change, Memory, Running, Site, SourceCaller, SourceEvent, SourceMachine, Stand, Value,
    exchange, is_access, make_at, mover,
};
use std::alloc::{AllocError, Global};

/// What the exchange of a list that comes next is to change.
fn entry_change(
    text: &Text,
    op: &Op,
    at: usize,
    entries: &Entries,
    made: usize,
    here: &Running,
    memory: &Memory,
) -> Change
    ensures { result ≡ (plan_entry text.now.fields op.now at entries.now made (slice_get entries.now made) here.now memory.now).change }
{
    match entries.items().get(made) {
        None => Change::Nothing,
        Some(entry) => match exchange(text.fields.items(), entry, &here.registers, memory) {
            None => Change::Nothing,
            Some(write) => Change::Writes(write),
        },
    }
}

/// What the pending access is to change.
fn access_change(text: &Text, name: u64, op: &Op, here: &Running, memory: &Memory) -> Change
    ensures { result ≡ (plan_access text.now name op.now here.now.stand here.now memory.now).change }
{
    match &here.stand {
        Stand::InGenerator(at) => {
            make_at(text, name, &op.generator, *at, &here.registers, memory).change
        }
        Stand::InList(at, entries, made) => {
            entry_change(text, op, *at, entries, *made, here, memory)
        }
        Stand::InWrapUp(at, _, _) => {
            if is_access(instruction_at(&op.wrapup, *at)) {
                make_at(text, name, &op.wrapup, *at, &here.registers, memory).change
            } else {
                Change::Nothing
            }
        }
    }
}

/// What an event of a caller is to change.
fn caller_change(text: &Text, event: &SourceEvent, caller: &SourceCaller, memory: &Memory) -> Change
    ensures { result ≡ (plan_of text.now event.now (performed text.now caller.now) memory.now).change }
{
    match event {
        SourceEvent::Access { name, .. } => match &caller.running {
            None => Change::Nothing,
            Some(here) => match text.ops.items().get(here.op as usize) {
                None => Change::Nothing,
                Some(op) => access_change(text, *name, op, here, memory),
            },
        },
        SourceEvent::Begin { .. } => Change::Nothing,
        SourceEvent::Restart { .. } => Change::Nothing,
        SourceEvent::GiveUp { .. } => Change::Nothing,
    }
}

/// What an event is to change.
pub(crate) fn planned_change(text: &Text, event: &SourceEvent, machine: &SourceMachine) -> Change
    ensures { result ≡ planned_change text.now event.now machine.now.memory (slice_get machine.now.callers (mover event.now)) }
{
    match machine.callers.items().get(mover(event) as usize) {
        None => Change::Nothing,
        Some(caller) => caller_change(text, event, caller, &machine.memory),
    }
}

fn is_root_site(site: Site) -> bool
    ensures { result ≡ is_root_site site }
{
    match site {
        Site::Root(_) => true,
        Site::Field(_, _) => false,
    }
}

/// Whether a field may be changed.
pub(crate) fn is_field_change(change: Change) -> bool
    ensures { result ≡ is_field_change change }
{
    match change {
        Change::Nothing => false,
        Change::Makes(_, _) => true,
        Change::Writes(write) => !is_root_site(write.site),
    }
}

/// The name that is retired, 0 for none.
pub(crate) fn retired_by(change: Change) -> u64
    ensures { result ≡ retired_by change }
{
    match change {
        Change::Nothing => 0,
        Change::Makes(_, _) => 0,
        Change::Writes(write) => write.retires,
    }
}

/// Whether a name leads to no retired node, if no root does.
fn is_fine(
    alloc: Global,
    memory: &Memory,
    name: u64,
    retirements: &Numbers,
    marks: &mut Marks,
) -> Result<bool, AllocError>
    ensures { IfOk result (λ fine. IsFineIf fine memory.now (name ∷ []) (is_among (numbering retirements.now) (length memory.now.retired))) }
{
    let known = root_names(alloc, memory)?;
    let count = memory.retired.items().len() as u64;
    let found = reached(alloc, memory, &[name], &known, retirements, count, marks)?;
    Ok(found.is_none())
}

/// Whether a change, before it is made, makes references only to what leads to no retired node, if no root does. A write of a root
/// that retires a node isn't looked at: the roots are searched after it.
pub(crate) fn is_calm(
    alloc: Global,
    memory: &Memory,
    change: Change,
    retirements: &Numbers,
    marks: &mut Marks,
) -> Result<bool, AllocError>
    ensures { IfOk result (λ calm. IsCalm calm memory.now change (is_among (numbering retirements.now) (length memory.now.retired))) }
{
    match change {
        Change::Nothing => Ok(true),
        Change::Makes(_, _) => is_fine(alloc, memory, 0, retirements, marks),
        Change::Writes(write) => match write.value {
            Value::Number(_) => Ok(true),
            Value::Node(reference) => {
                if is_root_site(write.site) && write.retires != 0 {
                    return Ok(false);
                }
                is_fine(alloc, memory, reference.node, retirements, marks)
            }
        },
    }
}
