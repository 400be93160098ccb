//! The search for an order.

ghost use Rattle.std.specs.Prelude.{◌≡◌, ◌<◌, ◌==◌, true, length, IfOk};
ghost use Rattle.std.specs.Bool.{Decides};
ghost use Rattle.std.specs.List.{list_any, remove};
ghost use Rattle.histories.specs.Histories.{after, reply_to, HasLegalOrder};
ghost use Rattle.histories.specs.Search.{can_be_made, can_be_missing, GoesOn, BeginsAt};

use crate::call::{Answer, Call};
use crate::shared::Shared;
use std::alloc::{AllocError, Global};

/// Whether a caller made one of these calls.
fn has_caller(calls: &[Call], caller: u32) -> bool
    ensures { result ≡ list_any (λ it. it.caller == caller) calls.now }
{
    calls.iter().any(|it| it.caller == caller)
}

/// All calls but one.
fn without(alloc: Global, calls: &[Call], at: usize) -> Result<Vec<Call>, AllocError>
    requires { at < length calls.now }
    ensures { IfOk result (λ rest. rest.items ≡ remove calls.now at) }
{
    let mut rest = Vec::from_slice(alloc, calls)?;
    rest.remove(at);
    Ok(rest)
}

/// Whether an answer can come of a call that has its effect, given what its reply would be.
fn can_be_made(answer: Answer, reply: Answer) -> bool
    ensures { result ≡ can_be_made answer reply }
{
    match answer {
        Answer::Number(n) => matches!(reply, Answer::Number(m) if m == n),
        Answer::Nothing => matches!(reply, Answer::Nothing),
        Answer::Spent => true,
        Answer::NoEffect => false,
    }
}

/// Whether an answer can come of a call that has no effect.
fn can_be_missing(answer: Answer) -> bool
    ensures { result ≡ can_be_missing answer }
{
    match answer {
        Answer::Number(_) => false,
        Answer::Nothing => false,
        Answer::Spent => true,
        Answer::NoEffect => true,
    }
}

/// Whether the rest can be made after a call that has its effect.
#[cycle(search)]
fn goes_on_made(
    alloc: Global,
    shared: &Shared,
    call: Call,
    rest: &[Call],
) -> Result<bool, AllocError>
    ensures { IfOk result (λ found. Decides found
        ((can_be_made call.answer (reply_to shared.now call.action) ≡ true) × HasLegalOrder (after shared.now call.action) rest.now)) }
{
    if can_be_made(call.answer, shared.reply_to(call.action)) {
        let next = shared.after(alloc, call.action)?;
        has_legal_order(alloc, &next, rest)
    } else {
        Ok(false)
    }
}

/// Whether the rest can be made after a call that has no effect.
#[cycle(search)]
fn goes_on_missing(
    alloc: Global,
    shared: &Shared,
    call: Call,
    rest: &[Call],
) -> Result<bool, AllocError>
    ensures { IfOk result (λ found. Decides found
        ((can_be_missing call.answer ≡ true) × HasLegalOrder shared.now rest.now)) }
{
    if can_be_missing(call.answer) {
        has_legal_order(alloc, shared, rest)
    } else {
        Ok(false)
    }
}

/// Whether the rest can be made after a call that has its answer.
#[cycle(search)]
fn goes_on(alloc: Global, shared: &Shared, call: Call, rest: &[Call]) -> Result<bool, AllocError>
    ensures { IfOk result (λ found. Decides found (GoesOn shared.now call rest.now)) }
{
    if goes_on_made(alloc, shared, call, rest)? {
        return Ok(true);
    }
    goes_on_missing(alloc, shared, call, rest)
}

/// Whether a legal order begins with the call at a place: none of its caller stands before it, and the rest can be made after it.
#[cycle(search)]
fn begins_at(alloc: Global, shared: &Shared, left: &[Call], at: usize) -> Result<bool, AllocError>
    requires { at < length left.now }
    ensures { IfOk result (λ found. Decides found (BeginsAt shared.now left.now at)) }
{
    let call = left[at];
    if has_caller(&left[..at], call.caller) {
        return Ok(false);
    }
    let rest = without(alloc, left, at)?;
    goes_on(alloc, shared, call, &rest)
}

/// Whether the calls that are left can be made in some order.
#[cycle(search)]
pub(crate) fn has_legal_order(
    alloc: Global,
    shared: &Shared,
    left: &[Call],
) -> Result<bool, AllocError>
    ensures { IfOk result (λ found. Decides found (HasLegalOrder shared.now left.now)) }
{
    if left.is_empty() {
        return Ok(true);
    }
    for at in 0..left.len() {
        if begins_at(alloc, shared, left, at)? {
            return Ok(true);
        }
    }
    Ok(false)
}
