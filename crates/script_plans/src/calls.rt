//! The calls of a document.

ghost use Rattle.std.specs.Prelude.{◌≡◌, ◌<◌, length, map, slice_index, true, IfOk};
ghost use Rattle.norm_lang.specs.Arguments.{are_words, padded};
ghost use Rattle.script_plans.specs.Plans.{call_of, calls_of, TakeWords, AllTakeWords};

use crate::plan::{CallList, CallLists};
use crate::shape::op_number;
use caller_parts::Call;
use documents::{Document, ScriptCall};
use norm_lang::list::Listed;
use norm_lang::text::Op;
use std::alloc::{AllocError, Global};

/// The number at a place, or 0 past the last.
fn number_at(numbers: &[u64], place: usize) -> u64
    ensures { result ≡ slice_index numbers.now place }
{
    numbers.get(place).copied().unwrap_or(0)
}

/// Four numbers: the first of these, and 0 past them.
pub(crate) fn padded(numbers: &[u64]) -> [u64; 4]
    ensures same { result ≡ padded numbers.now }
    ensures words { are_words result ≡ true }
{
    [
        number_at(numbers, 0),
        number_at(numbers, 1),
        number_at(numbers, 2),
        number_at(numbers, 3),
    ]
}

/// What a call line calls.
fn call_of(ops: &[Op], call: &ScriptCall) -> Call
    requires few { length ops.now < 256 }
    ensures same { result ≡ call_of ops.now call.now }
    ensures words { are_words result.args ≡ true }
{
    Call {
        op: op_number(ops, call.name.items()) as u8,
        args: padded(call.args.items()),
    }
}

fn script_calls(alloc: Global, ops: &[Op], script: &[ScriptCall]) -> Result<CallList, AllocError>
    requires few { length ops.now < 256 }
    ensures same { IfOk result (λ calls. calls ≡ map (call_of ops.now) script.now) }
    ensures words { IfOk result TakeWords }
{
    let mut calls = Listed::empty(alloc);
    for call in script {
        calls.push(call_of(ops, call))?;
    }
    Ok(calls)
}

/// The calls of each caller, in order.
pub(crate) fn calls_of(alloc: Global, document: &Document) -> Result<CallLists, AllocError>
    requires few { length document.now.text.ops < 256 }
    ensures same { IfOk result (λ scripts. scripts ≡ calls_of document.now) }
    ensures words { IfOk result AllTakeWords }
{
    let ops = document.text.ops.items();
    let mut scripts = Listed::empty(alloc);
    for script in document.scripts.items() {
        scripts.push(script_calls(alloc, ops, script.items())?)?;
    }
    Ok(scripts)
}
