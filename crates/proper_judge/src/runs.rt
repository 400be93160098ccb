//! What method runs have got, kept beside a run.

ghost use Rattle.std.specs.Prelude.{◌≡◌, option_copied, slice_get, [], IfOk};
ghost use Rattle.source_machine.specs.Step.{performed};
ghost use Rattle.source_machine.specs.Run.{mover};
ghost use Rattle.source_machine.specs.MethodRuns.{name_got};
ghost use Rattle.proper_judge.specs.Runs.{gain_in, gain_of, gain_at, stand_of, is_wrap_up, IsNamed, IsGained, Follows};

use crate::reach::is_in;
use norm_lang::list::Listed;
use norm_lang::local::instruction_at;
use norm_lang::registers::Registers;
use norm_lang::text::{Instr, Op, Text};
use source_machine::{
    Memory, Running, SourceCaller, SourceEvent, SourceMachine, Stand, Value, loaded, mover,
};
use std::alloc::{AllocError, Global};

/// The names that a method run has got, in the order in which it got them first, and how many retirements came before it began.
#[derive(Drop)]
pub struct KeptRun {
    pub got: Listed<u64>,
    pub before: usize,
}

/// What an event does to the method run of its caller: another begins, or it gets a name, 0 for none, if it is still in a method
/// then, or whatever comes.
#[derive(Clone, Copy)]
pub enum Gain {
    Begins,
    Gets(u64),
    GetsInside(u64),
}

/// The name that an instruction's access loads or makes, 0 for none.
fn name_got(
    text: &Text,
    name: u64,
    instr: Option<&Instr>,
    registers: &Registers,
    memory: &Memory,
) -> u64
    ensures { result ≡ name_got text.now name (option_copied instr.entry) registers.now memory.now }
{
    match instr {
        None => 0,
        Some(Instr::New(..)) => name,
        Some(i) => match loaded(text, i, registers, memory) {
            Value::Number(_) => 0,
            Value::Node(reference) => reference.node,
        },
    }
}

fn gain_in(text: &Text, name: u64, op: &Op, running: &Running, memory: &Memory) -> Gain
    ensures { result ≡ gain_in text.now name running.now.stand (record { op = op.now; running = running.now }) memory.now }
{
    match &running.stand {
        Stand::InGenerator(at) => Gain::Gets(name_got(
            text,
            name,
            instruction_at(&op.generator, *at),
            &running.registers,
            memory,
        )),
        Stand::InList(_, _, _) => Gain::Begins,
        Stand::InWrapUp(at, _, _) => Gain::GetsInside(name_got(
            text,
            name,
            instruction_at(&op.wrapup, *at),
            &running.registers,
            memory,
        )),
    }
}

fn gain_of(text: &Text, event: &SourceEvent, caller: &SourceCaller, memory: &Memory) -> Gain
    ensures { result ≡ gain_of text.now event.now (performed text.now caller.now) memory.now }
{
    match event {
        SourceEvent::Access { name, .. } => match &caller.running {
            None => Gain::Begins,
            Some(running) => match text.ops.items().get(running.op as usize) {
                None => Gain::Begins,
                Some(op) => gain_in(text, *name, op, running, memory),
            },
        },
        SourceEvent::Begin { .. } => Gain::Begins,
        SourceEvent::Restart { .. } => Gain::Begins,
        SourceEvent::GiveUp { .. } => Gain::Begins,
    }
}

/// What an event does to the method run of its caller, by the state before it.
pub fn gain_at(text: &Text, event: &SourceEvent, machine: &SourceMachine) -> Gain
    ensures { result ≡ gain_at text.now event.now machine.now.memory (slice_get machine.now.callers (mover event.now)) }
{
    match machine.callers.items().get(mover(event) as usize) {
        None => Gain::Begins,
        Some(caller) => gain_of(text, event, caller, &machine.memory),
    }
}

/// A run that gets a name, and the name if it hadn't got it before.
fn with_name(run: &mut KeptRun, name: u64) -> Result<Option<u64>, AllocError>
    ensures { IfOk result (IsNamed name run.old run.new) }
{
    if name == 0 || is_in(name, run.got.items()) {
        return Ok(None);
    }
    run.got.push(name)?;
    Ok(Some(name))
}

/// A run that begins after so many retirements.
fn begin(alloc: Global, run: &mut KeptRun, count: usize)
    ensures { run.new ≡ record { got = []; before = count } }
{
    run.got = Listed::empty(alloc);
    run.before = count;
}

/// Whether the caller stands in a wrap-up.
pub fn is_in_wrap_up(caller: Option<&SourceCaller>) -> bool
    ensures { result ≡ is_wrap_up (stand_of (option_copied caller.entry)) }
{
    match caller {
        None => false,
        Some(caller) => match &caller.running {
            None => false,
            Some(running) => match &running.stand {
                Stand::InGenerator(_) => false,
                Stand::InList(_, _, _) => false,
                Stand::InWrapUp(_, _, _) => true,
            },
        },
    }
}

/// The run after an event, by the count of retirements and by where its caller then stands, and the name that it has got now and
/// hadn't before.
fn gained(
    alloc: Global,
    gain: Gain,
    count: usize,
    caller: Option<&SourceCaller>,
    run: &mut KeptRun,
) -> Result<Option<u64>, AllocError>
    ensures { IfOk result (IsGained gain count (stand_of (option_copied caller.entry)) run.old run.new) }
{
    match gain {
        Gain::Begins => {
            begin(alloc, run, count);
            Ok(None)
        }
        Gain::Gets(name) => with_name(run, name),
        Gain::GetsInside(name) => {
            if is_in_wrap_up(caller) {
                return with_name(run, name);
            }
            begin(alloc, run, count);
            Ok(None)
        }
    }
}

/// Follows the run of a caller after an event, and answers with the name that it has got now and hadn't before.
pub(crate) fn follow(
    alloc: Global,
    gain: Gain,
    machine: &SourceMachine,
    c: usize,
    runs: &mut Vec<KeptRun>,
) -> Result<Option<u64>, AllocError>
    ensures { IfOk result (Follows gain machine.now c runs.old.items runs.new.items) }
{
    let count = machine.memory.retired.items().len();
    match runs.get_mut(c) {
        None => Ok(None),
        Some(run) => gained(alloc, gain, count, machine.callers.items().get(c), run),
    }
}
