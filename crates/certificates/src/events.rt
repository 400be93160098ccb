//! The lines of events, each after its first word.

ghost use Rattle.std.specs.Prelude.{◌≡◌, ◌<◌, length, option_copied};
ghost use Rattle.line_words.specs.Answered.{Reads};
ghost use Rattle.certificates.specs.EventLines.{op_named, may_take, may_take_at, caller_in, begin_line, access_line, lone_caller, phases_line, event_line};

use crate::numbers::numbers_behind;
use documents::limits::MOST_CALLER;
use line_words::fault::Fault;
use line_words::words::{Words, up_to, value_of};
use norm_lang::text::Op;
use source_machine::SourceEvent;

/// The place of the operation so named.
fn op_named(ops: &[Op], name: &[u8]) -> Option<usize>
    ensures { result ≡ op_named ops.now name.now }
{
    ops.iter().position(|op| op.name.items() == name)
}

/// Whether the operation takes so many arguments; one that isn't there may take any.
fn may_take(count: usize, op: Option<&Op>) -> bool
    ensures { result ≡ may_take count (option_copied op.entry) }
{
    match op {
        None => true,
        Some(op) => count == op.args as usize,
    }
}

fn may_take_at(ops: &[Op], place: Option<usize>, count: usize) -> bool
    ensures { result ≡ may_take_at ops.now place count }
{
    match place {
        None => true,
        Some(place) => may_take(count, ops.get(place)),
    }
}

/// A caller up to 2^32 - 1.
fn caller_in(number: u64) -> Result<u32, Fault>
    ensures { Reads (λ caller. caller) result (caller_in number) }
{
    let caller = up_to(MOST_CALLER, number)?;
    Ok(caller as u32)
}

/// `begin C NAME V V ..`, with as many numbers as the operation takes.
fn begin(ops: &[Op], words: &mut Words) -> Result<SourceEvent, Fault>
    requires few { length ops.now < 256 }
    ensures { Reads (λ event. event) result (begin_line ops.now words.old) }
{
    let caller = words.number()?;
    let op = op_named(ops, words.name()?);
    let numbers = numbers_behind(words)?;
    if !may_take_at(ops, op, numbers.count) {
        return Err(Fault::Form);
    }
    let caller = value_of(caller)?;
    if numbers.great {
        return Err(Fault::Number);
    }
    let Some(op) = op else {
        return Err(Fault::UnknownName);
    };
    let caller = caller_in(caller)?;
    Ok(SourceEvent::Begin {
        caller,
        op: op as u8,
        args: numbers.words,
    })
}

/// `access C N`
fn access(words: &mut Words) -> Result<SourceEvent, Fault>
    ensures { Reads (λ event. event) result (access_line words.old) }
{
    let caller = words.number()?;
    let name = words.number()?;
    words.end()?;
    let caller = value_of(caller)?;
    let name = value_of(name)?;
    let caller = caller_in(caller)?;
    Ok(SourceEvent::Access { caller, name })
}

/// `C` alone.
fn lone_caller(words: &mut Words) -> Result<u32, Fault>
    ensures { Reads (λ caller. caller) result (lone_caller words.old) }
{
    let caller = words.number()?;
    words.end()?;
    caller_in(value_of(caller)?)
}

/// `phases C P`
fn phases(words: &mut Words) -> Result<SourceEvent, Fault>
    ensures { Reads (λ event. event) result (phases_line words.old) }
{
    let caller = words.number()?;
    let phase = words.number()?;
    words.end()?;
    let caller = value_of(caller)?;
    let phase = value_of(phase)?;
    let caller = caller_in(caller)?;
    Ok(SourceEvent::GiveUp {
        caller,
        phase: Some(phase),
    })
}

/// An event, by the line's first word.
pub(crate) fn event(ops: &[Op], word: &[u8], words: &mut Words) -> Result<SourceEvent, Fault>
    requires few { length ops.now < 256 }
    ensures { Reads (λ event. event) result (event_line ops.now word.now words.old) }
{
    if word == b"begin".as_slice() {
        begin(ops, words)
    } else if word == b"access".as_slice() {
        access(words)
    } else if word == b"restart".as_slice() {
        let caller = lone_caller(words)?;
        Ok(SourceEvent::Restart { caller })
    } else if word == b"full".as_slice() {
        let caller = lone_caller(words)?;
        let phase = None;
        Ok(SourceEvent::GiveUp { caller, phase })
    } else if word == b"phases".as_slice() {
        phases(words)
    } else {
        Err(Fault::Form)
    }
}
