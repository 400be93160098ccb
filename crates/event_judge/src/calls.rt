//! Which call of its script a caller is to begin next.

ghost use Rattle.std.specs.Prelude.{◌≡◌, ◌+◌, option_copied, slice_get, slice_index};
ghost use Rattle.norm_lang.specs.Arguments.{padded};
ghost use Rattle.event_judge.specs.Calls.{is_call_of_op, is_call_so, listed, IsCounted, Counts};

use documents::{Script, ScriptCall};
use norm_lang::list::Listed;
use norm_lang::text::Op;
use source_machine::SourceEvent;

/// The argument with this number, or 0 past the last.
fn argument(args: &[u64], number: usize) -> u64
    ensures { result ≡ slice_index args.now number }
{
    args.get(number).copied().unwrap_or(0)
}

/// The words of arguments: four, with 0 past the last.
pub fn padded(args: &[u64]) -> [u64; 4]
    ensures { result ≡ padded args.now }
{
    [
        argument(args, 0),
        argument(args, 1),
        argument(args, 2),
        argument(args, 3),
    ]
}

/// Whether a call is one of this operation with these words.
fn is_call_of_op(call: &ScriptCall, words: &[u64; 4], op: Option<&Op>) -> bool
    ensures { result ≡ is_call_of_op call.now words.now (option_copied op.entry) }
{
    match op {
        None => false,
        Some(op) => {
            op.name.items() == call.name.items()
                && call.args.items().len() == op.args as usize
                && words.as_slice() == padded(call.args.items()).as_slice()
        }
    }
}

/// How many calls a caller has begun, if it begins this call as the next of its script after so many.
fn begun_with(
    ops: &[Op],
    script: Option<&Script>,
    begun: usize,
    number: u8,
    words: &[u64; 4],
) -> Option<usize>
    ensures { IsCounted (is_call_so ops.now (slice_get (listed (option_copied script.entry)) begun) number words.now) begun result }
{
    let calls = script?.items();
    if begun >= calls.len() {
        return None;
    }
    let call = calls.get(begun)?;
    if is_call_of_op(call, words, ops.get(number as usize)) {
        Some(begun + 1)
    } else {
        None
    }
}

/// How many calls a caller has begun.
pub(crate) fn begun_by(begun: &[usize], caller: usize) -> usize
    ensures { result ≡ slice_index begun.now caller }
{
    match begun.get(caller) {
        None => 0,
        Some(count) => *count,
    }
}

/// Counts the call that an event begins, unless it is another than the next of its caller's script.
pub fn count(ops: &[Op], scripts: &[Script], begun: &mut Listed<usize>, event: &SourceEvent) -> bool
    ensures { Counts ops.now scripts.now begun.old event.now begun.new result }
{
    match event {
        SourceEvent::Begin { caller, op, args } => {
            let at = *caller as usize;
            let so_far = begun_by(begun.items(), at);
            match begun_with(ops, scripts.get(at), so_far, *op, args) {
                None => false,
                Some(count) => {
                    begun.replace(at, count);
                    true
                }
            }
        }
        SourceEvent::Access { .. } => true,
        SourceEvent::Restart { .. } => true,
        SourceEvent::GiveUp { .. } => true,
    }
}
