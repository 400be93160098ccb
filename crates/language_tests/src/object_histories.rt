//! Histories of sets and of the queue.

use queue_laws::queue_history;
use set_laws::{Deed, set_history};
use source_machine::{RunError, SourceEvent};
use std::alloc::{AllocError, Global};
use std::process::Abort;

fn begin(caller: u32, op: u8, argument: u64) -> SourceEvent {
    SourceEvent::Begin {
        caller,
        op,
        args: [argument, 0, 0, 0],
    }
}

/// The events that bytes spell, of caller 0 at first: `i`, `r` and `c` begin an insert, a remove and a search of 5, `j` and `k` an insert
/// and a search of 4, `e` an enqueue of 9 and `d` a dequeue; `.` is an access that names no node, and a digit one that names that
/// node; `!` is a restart, and `f` gives up. What follows `<` is of caller 1, and what follows `>` of caller 0.
fn spelled(alloc: Global, bytes: &[u8]) -> Result<Vec<SourceEvent>, AllocError> {
    let mut events = Vec::new(alloc);
    let mut caller = 0;
    for byte in bytes {
        match *byte {
            b'<' => caller = 1,
            b'>' => caller = 0,
            byte => events.push(event(caller, byte))?,
        }
    }
    Ok(events)
}

fn event(caller: u32, byte: u8) -> SourceEvent {
    match byte {
        b'i' => begin(caller, 0, 5),
        b'r' => begin(caller, 1, 5),
        b'c' => begin(caller, 2, 5),
        b'j' => begin(caller, 0, 4),
        b'k' => begin(caller, 2, 4),
        b'e' => begin(caller, 0, 9),
        b'd' => begin(caller, 1, 0),
        b'!' => SourceEvent::Restart { caller },
        b'f' => SourceEvent::GiveUp {
            caller,
            phase: None,
        },
        b'1'..=b'9' => SourceEvent::Access {
            caller,
            name: (byte - b'0') as u64,
        },
        _ => SourceEvent::Access { caller, name: 0 },
    }
}

fn deed_of(caller: u32, op: u8, arg: u64, reply: Option<u64>, moment: u64) -> Deed {
    Deed {
        caller,
        op,
        arg,
        reply,
        moment,
    }
}

/// A deed of caller 0.
fn deed(op: u8, arg: u64, reply: Option<u64>, moment: u64) -> Deed {
    deed_of(0, op, arg, reply, moment)
}

fn expect_deeds(rt: &impl Abort, deeds: &[Deed], wanted: &[Deed]) {
    assert!(rt; deeds == wanted);
}

/// The history of a set of one bucket.
fn expect_set(rt: &(impl Abort + AllocGlobal), bytes: &[u8], wanted: &[Deed]) {
    let events = spelled(rt.alloc(), bytes).expect(rt, "memory ran out");
    let history = set_history(rt.alloc(), 1, 1, &events).expect(rt, "each is enabled");
    expect_deeds(rt, history.items(), wanted);
}

/// The history of a set of two buckets, or of one.
fn expect_buckets(
    rt: &(impl Abort + AllocGlobal),
    buckets: u32,
    callers: u32,
    bytes: &[u8],
    wanted: &[Deed],
) {
    assert!(rt; 1 <= buckets && buckets <= 2 && 1 <= callers && callers <= 2);
    let events = spelled(rt.alloc(), bytes).expect(rt, "memory ran out");
    let history = set_history(rt.alloc(), buckets, callers, &events).expect(rt, "each is enabled");
    expect_deeds(rt, history.items(), wanted);
}

fn expect_queue(rt: &(impl Abort + AllocGlobal), bytes: &[u8], wanted: &[Deed]) {
    let events = spelled(rt.alloc(), bytes).expect(rt, "memory ran out");
    let history = queue_history(rt.alloc(), 1, &events).expect(rt, "each is enabled");
    expect_deeds(rt, history.items(), wanted);
}

#[test]
fn what_is_inserted_is_found(rt: HostRuntime) {
    let wanted = [deed(0, 5, Some(1), 6), deed(2, 5, Some(1), 10)];
    expect_set(&rt, b"i..2...c.....", &wanted);
}

#[test]
fn a_search_that_began_again_misses_at_its_last_load(rt: HostRuntime) {
    expect_set(&rt, b"c..!...", &[deed(2, 5, Some(0), 5)]);
}

#[test]
fn a_removal_that_runs_has_its_deed(rt: HostRuntime) {
    let wanted = [deed(0, 5, Some(1), 6), deed(1, 5, Some(1), 12)];
    expect_set(&rt, b"i..2...r.....", &wanted);
}

#[test]
fn an_insert_of_a_key_that_is_there_finds_it_at_the_load_behind_it(rt: HostRuntime) {
    let wanted = [deed(0, 5, Some(1), 6), deed(0, 5, Some(0), 10)];
    expect_set(&rt, b"i..2...i.....", &wanted);
}

#[test]
fn a_removal_of_a_key_that_is_missing_misses_it_at_its_last_load(rt: HostRuntime) {
    expect_set(&rt, b"r...", &[deed(1, 5, Some(0), 2)]);
}

/// The search of 5 passes 4, and misses at the load of what follows it.
#[test]
fn a_search_goes_over_a_smaller_key(rt: HostRuntime) {
    let misses = [deed(0, 4, Some(1), 6), deed(2, 5, Some(0), 10)];
    expect_set(&rt, b"j..2...c.....", &misses);
    let finds = [
        deed(0, 4, Some(1), 6),
        deed(0, 5, Some(1), 15),
        deed(2, 5, Some(1), 21),
    ];
    expect_set(&rt, b"j..2...i....3...c.......", &finds);
}

/// The mark comes at event 15, and the search finds it; its own exchange fails, since the removal has unlinked the node, and it begins
/// again.
#[test]
fn two_callers_of_a_set(rt: HostRuntime) {
    let wanted = [
        deed(0, 5, Some(1), 6),
        deed(1, 5, Some(1), 15),
        deed_of(1, 2, 5, Some(0), 20),
    ];
    expect_buckets(&rt, 1, 2, b"i..2...<c..>r......<.....", &wanted);
}

/// The removal has marked the node. The search of the other caller unlinks it, and misses at that exchange; that of the removal comes
/// too late.
#[test]
fn a_search_unlinks_what_another_has_marked(rt: HostRuntime) {
    let wanted = [
        deed(0, 5, Some(1), 6),
        deed(1, 5, Some(1), 12),
        deed_of(1, 2, 5, Some(0), 17),
    ];
    expect_buckets(&rt, 1, 2, b"i..2...r.....<c.....>.", &wanted);
}

/// 4 goes into the first bucket and 5 into the second, so that neither search passes the other key.
#[test]
fn two_buckets_have_a_list_each(rt: HostRuntime) {
    let wanted = [
        deed(0, 5, Some(1), 6),
        deed(2, 4, Some(0), 9),
        deed(0, 4, Some(1), 17),
        deed(2, 5, Some(1), 21),
    ];
    expect_buckets(&rt, 2, 1, b"i..3...k...j..4...c.....", &wanted);
}

/// The dequeue swings the tail to what the enqueue has linked, and takes it before the enqueue ends.
#[test]
fn two_callers_of_the_queue(rt: HostRuntime) {
    let events = spelled(rt.alloc(), b"<e..2..>d.........<...").expect(&rt, "memory ran out");
    let history = queue_history(rt.alloc(), 2, &events).expect(&rt, "each is enabled");
    let wanted = [deed_of(1, 0, 9, Some(9), 5), deed(1, 0, Some(9), 15)];
    expect_deeds(&rt, history.items(), &wanted);
}

#[test]
fn one_value_goes_through_the_queue(rt: HostRuntime) {
    let wanted = [
        deed(1, 0, None, 3),
        deed(0, 9, Some(9), 10),
        deed(1, 0, Some(9), 20),
    ];
    expect_queue(&rt, b"d....e..2......d.....", &wanted);
}

#[test]
fn what_gave_up_has_no_deed(rt: HostRuntime) {
    expect_queue(&rt, b"e..f", &[]);
    expect_set(&rt, b"i..f", &[]);
}

/// The place of the event that isn't enabled.
fn refused_at<T: Drop>(rt: &impl Abort, told: Result<T, RunError>) -> u64 {
    match told {
        Ok(_) => panic!(rt; "each is enabled"),
        Err(RunError::NotEnabled { at }) => at,
        Err(RunError::Memory) => panic!(rt; "memory ran out"),
    }
}

#[test]
fn the_event_that_is_not_enabled_is_told(rt: HostRuntime) -> Result<(), AllocError> {
    let events = spelled(rt.alloc(), b"c..ii")?;
    assert!(rt; refused_at(&rt, set_history(rt.alloc(), 2, 1, &events)) == 3);
    assert!(rt; refused_at(&rt, queue_history(rt.alloc(), 1, &events)) == 0);
    Ok(())
}
