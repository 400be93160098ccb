//! Loads, made in place. They are nearly all that a caller does, and change nothing but its registers and where it stands, so
//! that no operation is copied for them.

ghost use Rattle.std.specs.Prelude.{◌≡◌, ◌<◌, option_copied, slice_get};
ghost use Rattle.source_machine.specs.Loads.{is_commit_at, LoadsOn, LoadsBefore, LoadsStanding, LoadsRunning, LoadsBy, Loads};

use crate::access::{loaded, put_value};
use crate::event::SourceEvent;
use crate::state::{Memory, Running, SourceCaller, SourceMachine, Stand};
use norm_lang::local::{instruction_at, run_local};
use norm_lang::registers::Registers;
use norm_lang::text::{Code, Instr, Op, Text};

fn is_commit(instr: Option<&Instr>) -> bool
    ensures { result ≡ is_commit_at (option_copied instr.entry) }
{
    match instr {
        Some(Instr::Commit(_)) => true,
        _ => false,
    }
}

/// The load at a place of a method, and the local code after it; nothing if no load stands there. It answers where that leads.
fn load_on(
    text: &Text,
    code: &Code,
    at: usize,
    registers: &mut Registers,
    memory: &Memory,
) -> Option<usize>
    ensures { LoadsOn text.now memory.now code.now at registers.old registers.new result }
{
    let count = code.items().len();
    match code.items().get(at) {
        None => None,
        Some(instr) => match instr {
            Instr::LoadRoot(d, _) | Instr::LoadPick(d, _, _, _) | Instr::LoadField(d, _, _) => {
                prove!(at < count);
                let value = loaded(text, instr, registers, memory);
                put_value(registers, *d, value);
                Some(run_local(code, at + 1, registers))
            }
            _ => None,
        },
    }
}

/// A load of a generator that doesn't come to its commit; nothing if it does, since the commit's list needs memory.
fn load_before(
    text: &Text,
    code: &Code,
    at: usize,
    registers: &mut Registers,
    memory: &Memory,
) -> Option<usize>
    ensures { LoadsBefore text.now memory.now code.now at registers.old registers.new result }
{
    let before = *registers;
    match load_on(text, code, at, registers, memory) {
        None => None,
        Some(next) => {
            if is_commit(instruction_at(code, next)) {
                *registers = before;
                return None;
            }
            Some(next)
        }
    }
}

/// A load where an operation stands, and whether there was one to make.
fn load_standing(
    text: &Text,
    op: &Op,
    registers: &mut Registers,
    stand: &mut Stand,
    memory: &Memory,
) -> bool
    ensures { LoadsStanding text.now memory.now op.now registers.old stand.old registers.new stand.new result }
{
    match stand {
        Stand::InGenerator(at) => match load_before(text, &op.generator, *at, registers, memory) {
            None => false,
            Some(next) => {
                *at = next;
                true
            }
        },
        Stand::InList(_, _, _) => false,
        Stand::InWrapUp(at, _, accessed) => {
            match load_on(text, &op.wrapup, *at, registers, memory) {
                None => false,
                Some(next) => {
                    *at = next;
                    *accessed = true;
                    true
                }
            }
        }
    }
}

/// A load of an operation that runs.
fn load_running(text: &Text, running: &mut Running, memory: &Memory) -> bool
    ensures { LoadsRunning text.now memory.now running.old running.new result }
{
    match text.ops.items().get(running.op as usize) {
        None => false,
        Some(op) => load_standing(text, op, &mut running.registers, &mut running.stand, memory),
    }
}

/// A load of a caller.
pub(crate) fn load_by(text: &Text, caller: &mut SourceCaller, memory: &Memory) -> bool
    ensures { LoadsBy text.now memory.now caller.old caller.new result }
{
    match &mut caller.running {
        None => false,
        Some(running) => load_running(text, running, memory),
    }
}

/// Makes an event that is a load, in place; any other, and one that isn't enabled, isn't made.
pub(crate) fn load(text: &Text, machine: &mut SourceMachine, event: &SourceEvent) -> bool
    ensures { Loads text.now event.now machine.old machine.new result }
{
    match event {
        SourceEvent::Access { caller, name } => {
            if *name != 0 {
                return false;
            }
            machine
                .callers
                .load(text, *caller as usize, &machine.memory)
        }
        SourceEvent::Begin { .. } => false,
        SourceEvent::Restart { .. } => false,
        SourceEvent::GiveUp { .. } => false,
    }
}
