//! Runs of a counter and of the list.

ghost use Rattle.std.specs.Prelude.{◌≡◌, length};
ghost use Rattle.source_machine.specs.Calls.{IsOfSourceRun};

use norm_check::{Normal, check};
use norm_lang::{shipped_queue, shipped_set};
use norm_parser::parse;
use source_machine::{
    Pending, RunError, SourceEvent, SourceReply, SourceState, StepError, run, step,
};
use std::alloc::{AllocError, Global};
use std::process::Abort;

/// The root grows by the argument, and is the reply.
const COUNTER: &[u8] = b"oa 1
field pad num
nodes 0
root total num 0
op add 1
gen
root n1 total
add n2 n1 n0
commit 1
withroot total n1 n2
wrap
set n3 0
ifeq n7 n3 3
return n2
again
op nop 0
gen
commit 0
wrap
returnnone
";

/// A name far above those of nodes that stand in slots.
const LARGE: u64 = 1_099_511_627_776;

fn begin(op: u8, argument: u64) -> SourceEvent {
    SourceEvent::Begin {
        caller: 0,
        op,
        args: [argument, 0, 0, 0],
    }
}

fn access(name: u64) -> SourceEvent {
    SourceEvent::Access { caller: 0, name }
}

/// The events that bytes spell: `0`, `1` and `2` begin an operation by its number with the argument 5, and `n` operation 1
/// without one; `.` is an access that names no node, `s` one that names node 1, `+` and `m` ones with large names; `r` is a
/// restart, and `f` gives up.
fn spelled(alloc: Global, bytes: &[u8]) -> Result<Vec<SourceEvent>, AllocError> {
    let mut events = Vec::new(alloc);
    for byte in bytes {
        events.push(event(*byte))?;
    }
    Ok(events)
}

fn event(byte: u8) -> SourceEvent {
    match byte {
        b'0' => begin(0, 5),
        b'1' => begin(1, 5),
        b'2' => begin(2, 5),
        b'n' => begin(1, 0),
        b'r' => SourceEvent::Restart { caller: 0 },
        b'f' => SourceEvent::GiveUp {
            caller: 0,
            phase: Some(7),
        },
        b'+' => access(LARGE),
        b's' => access(1),
        b'm' => access(u64::MAX),
        _ => access(0),
    }
}

#[tactic(auto, using(crate::proofs::FewLines::few_lines))]
fn normal_of(rt: &(impl Abort + AllocGlobal), text: &[u8]) -> Normal {
    assert!(rt; text.len() < 1_000_000);
    let text = parse(rt.alloc(), text).expect(rt, "it is a text");
    check(rt.alloc(), text).expect(rt, "it is normal")
}

fn list(rt: &(impl Abort + AllocGlobal)) -> Normal {
    let text = shipped_set(rt.alloc(), 1).expect(rt, "memory ran out");
    check(rt.alloc(), text).expect(rt, "it is normal")
}

fn queue(rt: &(impl Abort + AllocGlobal)) -> Normal {
    let text = shipped_queue(rt.alloc()).expect(rt, "memory ran out");
    check(rt.alloc(), text).expect(rt, "it is normal")
}

/// What a run gives caller 0 in replies, by their digits, or the place of the event that isn't enabled.
fn told(rt: &(impl Abort + AllocGlobal), normal: &Normal, bytes: &[u8]) -> Result<u64, u64> {
    let events = spelled(rt.alloc(), bytes).expect(rt, "memory ran out");
    match run(rt.alloc(), normal, 1, &events) {
        Ok(state) => Ok(digits(state.replies(0))),
        Err(RunError::NotEnabled { at }) => Err(at),
        Err(RunError::Memory) => panic!(rt; "memory ran out"),
    }
}

/// The replies as a number, a digit each: a number below 7 is itself, no number 7, `Full` 8 and `Phases` 9.
fn digits(replies: &[SourceReply]) -> u64 {
    let mut number = 0u64;
    for reply in replies {
        number = number.wrapping_mul(10).wrapping_add(digit(*reply));
    }
    number
}

fn digit(reply: SourceReply) -> u64 {
    match reply {
        SourceReply::Number(n) => n,
        SourceReply::Nothing => 7,
        SourceReply::Full => 8,
        SourceReply::Phases(_) => 9,
    }
}

/// Each of these runs is told so.
fn expect_told(
    rt: &(impl Abort + AllocGlobal),
    normal: &Normal,
    rows: &[(&[u8], Result<u64, u64>)],
) {
    for (bytes, wanted) in rows {
        assert!(rt; told(rt, normal, bytes) == *wanted);
    }
}

#[test]
fn a_counter_counts(rt: HostRuntime) {
    let rows: [(&[u8], Result<u64, u64>); 2] = [(b"0.r..", Ok(5)), (b"0.r..n.", Ok(57))];
    expect_told(&rt, &normal_of(&rt, COUNTER), &rows);
}

#[test]
fn the_first_event_that_is_not_enabled_is_named(rt: HostRuntime) {
    let rows: [(&[u8], Result<u64, u64>); 3] = [
        (b"0.r...", Err(5)),
        (b"1", Err(0)),
        (b"00", Err(1)),
    ];
    expect_told(&rt, &normal_of(&rt, COUNTER), &rows);
}

/// A caller that has its reply makes no access.
fn expect_refusal(rt: &(impl Abort + AllocGlobal), normal: &Normal, state: &mut SourceState)
    requires runs { IsOfSourceRun normal.now state.old }
    requires callers { length state.old.callers ≡ 1 }
{
    let refused = step(rt.alloc(), state, normal, &access(0));
    assert!(rt; refused == Err(StepError::NotEnabled));
    assert!(rt; digits(state.replies(0)) == 5);
}

fn state_of(rt: &(impl Abort + AllocGlobal), normal: &Normal, bytes: &[u8]) -> SourceState
    ensures runs { IsOfSourceRun normal.now result }
    ensures callers { length result.callers ≡ 1 }
{
    let events = spelled(rt.alloc(), bytes).expect(rt, "memory ran out");
    run(rt.alloc(), normal, 1, &events).expect(rt, "each is enabled")
}

fn expect_none_further(rt: &(impl Abort + AllocGlobal), normal: &Normal) {
    let mut state = state_of(rt, normal, b"0.r..");
    expect_refusal(rt, normal, &mut state);
}

#[test]
fn a_further_access_is_refused(rt: HostRuntime) {
    expect_none_further(&rt, &normal_of(&rt, COUNTER));
}

#[test]
fn names_may_be_large(rt: HostRuntime) {
    let rows: [(&[u8], Result<u64, u64>); 2] = [
        (b"0..+...2.....1......2...", Ok(1110)),
        (b"0..m...2.....", Ok(11)),
    ];
    expect_told(&rt, &list(&rt), &rows);
}

#[test]
fn names_are_used_once(rt: HostRuntime) {
    let rows: [(&[u8], Result<u64, u64>); 3] = [
        (b"0..s", Err(3)),
        (b"0...", Err(3)),
        (b"0..m+", Err(4)),
    ];
    expect_told(&rt, &list(&rt), &rows);
}

#[test]
fn a_caller_gives_up_at_a_new_alone(rt: HostRuntime) {
    let rows: [(&[u8], Result<u64, u64>); 3] = [
        (b"0.f", Err(2)),
        (b"0..f", Ok(9)),
        (b"0..ff", Err(4)),
    ];
    expect_told(&rt, &list(&rt), &rows);
}

fn letter(pending: Pending) -> u8 {
    match pending {
        Pending::Idle => b'i',
        Pending::New => b'n',
        Pending::End => b'e',
        Pending::Shared => b's',
    }
}

/// Behind each of these runs the next access of caller 0 is of that kind.
fn expect_pending(rt: &(impl Abort + AllocGlobal), normal: &Normal, rows: &[(&[u8], u8)]) {
    for (bytes, wanted) in rows {
        assert!(rt; letter(state_of(rt, normal, bytes).pending(normal, 0)) == *wanted);
    }
}

#[test]
fn the_next_access_is_told(rt: HostRuntime) {
    let counter: [(&[u8], u8); 4] = [(b"", b'i'), (b"0", b's'), (b"n", b'e'), (b"0.r..", b'i')];
    expect_pending(&rt, &normal_of(&rt, COUNTER), &counter);
    let inserting: [(&[u8], u8); 2] = [(b"0.", b's'), (b"0..", b'n')];
    expect_pending(&rt, &list(&rt), &inserting);
    // The wrap-up of an enqueue loads the tail and what follows it; once the tail was swung, the wrap-up ends with an access of its own.
    let enqueuing: [(&[u8], u8); 6] = [
        (b"0..", b'n'),
        (b"0..+.", b's'),
        (b"0..+..", b's'),
        (b"0..+....", b's'),
        (b"0..+.....", b'e'),
        (b"0..+......", b'i'),
    ];
    expect_pending(&rt, &queue(&rt), &enqueuing);
}
