//! Whole sweeps and claims, against lists of accesses that were worked out by hand.

use crate::rows::{exchange, load, raise, row, small, store};
use crate::runs::{claims, claims_on, sweeps, sweeps_on};
use oa_words::shape::Shape;
use phase_pools::access::{Access, ClaimEnd, SweepEnd};
use phase_pools::claim::ClaimState;
use phase_pools::sweep::SweepState;

/// The accesses of the first sweep, which frees slot 2: slot 3 is guarded.
fn first_sweep() -> [Access; 18] {
    [
        load(0),
        exchange(0, 1, 2),
        raise(2, 2),
        load(3),
        load(4),
        load(5),
        load(6),
        load(7),
        load(8),
        load(9),
        load(10),
        load(14),
        load(13),
        exchange(13, 6, 8),
        load(24),
        store(27, 0),
        exchange(24, 8192, 16386),
        load(12),
    ]
}

/// The accesses of the second sweep, which frees slots 3 and 1.
fn second_sweep() -> [Access; 22] {
    [
        load(0),
        exchange(0, 2, 3),
        raise(2, 3),
        load(3),
        load(4),
        load(5),
        load(6),
        load(7),
        load(8),
        load(9),
        load(10),
        load(14),
        exchange(14, 6, 12),
        load(24),
        store(28, 2),
        exchange(24, 16386, 24579),
        load(13),
        load(12),
        exchange(12, 10, 12),
        load(24),
        store(26, 3),
        exchange(24, 24579, 24577),
    ]
}

/// Slot 1 is used, slots 2 and 3 were retired in phase 1, and slot 3 is guarded. Then slot 1 is retired in phase 2, and
/// slot 3 isn't guarded any more: it is pushed onto slot 2, and slot 1 onto it.
#[test]
fn two_sweeps_free_what_no_guard_names(rt: HostRuntime) {
    let shape = small(&rt);
    let mut words = row(1, 3, [5, 6, 6], [8192, 0, 0, 0]);
    assert!(rt; sweeps(&rt, &shape, 5, &mut words, &first_sweep()) == Some(SweepEnd::Swept));
    assert!(rt; words == row(2, 3, [5, 8, 6], [16386, 0, 0, 0]));
    words = row(2, 0, [10, 8, 6], [16386, 0, 0, 0]);
    assert!(rt; sweeps(&rt, &shape, 5, &mut words, &second_sweep()) == Some(SweepEnd::Swept));
    assert!(rt; words == row(3, 0, [12, 8, 12], [24577, 3, 0, 2]));
}

/// Slot 3 is on top when the head is loaded, and is claimed before the exchange; then the head has a greater phase than the
/// sweep announces.
#[test]
fn push_begins_again_where_head_has_changed(rt: HostRuntime) {
    let shape = small(&rt);
    let mut words = row(1, 0, [6, 5, 4], [8195, 0, 0, 0]);
    let mut sweep = SweepState::begin();
    let until_exchange = [
        load(0),
        exchange(0, 1, 2),
        raise(2, 2),
        load(3),
        load(4),
        load(5),
        load(6),
        load(7),
        load(8),
        load(9),
        load(10),
        load(14),
        load(13),
        load(12),
        exchange(12, 6, 8),
        load(24),
        store(26, 3),
    ];
    assert!(rt; sweeps_on(&rt, &shape, 5, &mut sweep, &mut words, &until_exchange).is_none());
    words = row(3, 0, [8, 12, 5], [24578, 3, 0, 0]);
    let failed = [exchange(24, 8195, 16385), load(24), store(26, 2)];
    assert!(rt; sweeps_on(&rt, &shape, 5, &mut sweep, &mut words, &failed).is_none());
    assert!(rt; words == row(3, 0, [8, 12, 5], [24578, 2, 0, 0]));
    let pushed = [exchange(24, 24578, 24577)];
    assert!(rt;
        sweeps_on(&rt, &shape, 5, &mut sweep, &mut words, &pushed) == Some(SweepEnd::Swept)
    );
    assert!(rt; words == row(3, 0, [8, 12, 5], [24577, 2, 0, 0]));
}

/// The words of a row of 8 callers, 3 slots, 1 field and 1 cell in phase 1. All hazards name slot 1 but the last, which names
/// slot 2; slots 1 to 3 were retired in phase 1.
fn row_of_eight() -> [u64; 95] {
    let mut words = [0; 95];
    words[0] = 1;
    for at in 9..80 {
        words[at] = 1;
    }
    words[80] = 2;
    words[81] = 5;
    words[82] = 6;
    words[83] = 6;
    words[84] = 6;
    words[90] = 8192;
    words
}

/// The accesses of its sweep, which frees slot 3: after the first two, eight warnings are raised and 64 hazards loaded, at
/// addresses one after another.
fn sweep_of_eight() -> [Access; 81] {
    let mut accesses = [load(0); 81];
    accesses[1] = exchange(0, 1, 2);
    for at in 9..81u32 {
        accesses[at as usize - 7] = if at < 17 { raise(at, 2) } else { load(at) };
    }
    accesses[74] = load(84);
    accesses[75] = exchange(84, 6, 8);
    accesses[76] = load(90);
    accesses[77] = store(94, 0);
    accesses[78] = exchange(90, 8192, 16387);
    accesses[79] = load(83);
    accesses[80] = load(82);
    accesses
}

#[test]
fn sixty_four_hazards_are_gathered(rt: HostRuntime) {
    let shape = Shape::new(8, 3, 1, 1).expect(&rt, "the numbers are in range");
    let mut words = row_of_eight();
    assert!(rt; sweeps(&rt, &shape, 5, &mut words, &sweep_of_eight()) == Some(SweepEnd::Swept));
    let changed = [
        words[0], words[16], words[82], words[83], words[84], words[90],
    ];
    assert!(rt; changed == [2, 2, 6, 6, 8, 16387]);
}

/// Slots 2 and 3 are chained; another claim takes slot 2 before the exchange.
#[test]
fn claims_go_down_the_chain(rt: HostRuntime) {
    let shape = small(&rt);
    let mut words = row(1, 0, [5, 4, 4], [8194, 0, 3, 0]);
    let mut late = ClaimState::begin(&shape, 0);
    let until_exchange = [load(24), load(27)];
    assert!(rt; claims_on(&rt, &shape, 5, &mut late, &mut words, &until_exchange).is_none());
    let whole = [load(24), load(27), exchange(24, 8194, 8195), store(13, 5)];
    assert!(rt; claims(&rt, &shape, 5, 0, &mut words, &whole) == Some(ClaimEnd::Claimed(2)));
    assert!(rt; words == row(1, 0, [5, 5, 4], [8195, 0, 3, 0]));
    let from_exchange = [
        exchange(24, 8194, 8195),
        load(24),
        load(28),
        exchange(24, 8195, 8192),
        store(14, 5),
    ];
    assert!(rt;
        claims_on(&rt, &shape, 5, &mut late, &mut words, &from_exchange)
            == Some(ClaimEnd::Claimed(3))
    );
    assert!(rt; words == row(1, 0, [5, 5, 5], [8192, 0, 3, 0]));
}

/// A list whose three slots are used up, so that none is on top: look, sweep, look, sweep, look.
#[test]
fn claim_of_a_full_list(rt: HostRuntime) {
    let shape = small(&rt);
    let mut words = row(1, 0, [5, 5, 5], [8192, 0, 0, 0]);
    let expected = [
        load(24),
        load(0),
        exchange(0, 1, 2),
        raise(2, 2),
        load(3),
        load(4),
        load(5),
        load(6),
        load(7),
        load(8),
        load(9),
        load(10),
        load(14),
        load(13),
        load(12),
        load(24),
        load(0),
        exchange(0, 2, 3),
        raise(2, 3),
        load(3),
        load(4),
        load(5),
        load(6),
        load(7),
        load(8),
        load(9),
        load(10),
        load(14),
        load(13),
        load(12),
        load(24),
    ];
    assert!(rt; claims(&rt, &shape, 1000, 0, &mut words, &expected) == Some(ClaimEnd::Full));
    assert!(rt; words == row(3, 0, [5, 5, 5], [8192, 0, 0, 0]));
}

/// Slots 2 and 3 were retired in the last phase.
#[test]
fn claim_when_phases_are_over(rt: HostRuntime) {
    let shape = small(&rt);
    let mut words = row(2, 0, [5, 10, 10], [8192, 0, 0, 0]);
    let expected = [load(24), load(0)];
    assert!(rt; claims(&rt, &shape, 2, 0, &mut words, &expected) == Some(ClaimEnd::PhasesOver(2)));
    assert!(rt; words == row(2, 0, [5, 10, 10], [8192, 0, 0, 0]));
}

/// Slots 2 and 3 were retired in phase 1: the sweep makes both ready, slot 2 ends on top, and the look after it takes that.
#[test]
fn claim_of_a_recycled_slot(rt: HostRuntime) {
    let shape = small(&rt);
    let mut words = row(1, 0, [5, 6, 6], [8192, 0, 0, 0]);
    let expected = [
        load(24),
        load(0),
        exchange(0, 1, 2),
        raise(2, 2),
        load(3),
        load(4),
        load(5),
        load(6),
        load(7),
        load(8),
        load(9),
        load(10),
        load(14),
        exchange(14, 6, 8),
        load(24),
        store(28, 0),
        exchange(24, 8192, 16387),
        load(13),
        exchange(13, 6, 8),
        load(24),
        store(27, 3),
        exchange(24, 16387, 16386),
        load(12),
        load(24),
        load(27),
        exchange(24, 16386, 16387),
        store(13, 9),
    ];
    assert!(rt; claims(&rt, &shape, 2, 0, &mut words, &expected) == Some(ClaimEnd::Claimed(2)));
    assert!(rt; words == row(2, 0, [5, 9, 8], [16387, 0, 3, 0]));
}
