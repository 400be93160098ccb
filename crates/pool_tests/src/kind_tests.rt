//! Rows of several kinds of nodes, and claims of callers that announce phases.

ghost use Rattle.std.specs.Prelude.{◌≡◌, [], ◌∷◌};

use crate::rows::{exchange, load, raise, store};
use crate::runs::{claims, claims_on};
use oa_words::shape::{Shape, ShapeFault};
use phase_pools::access::{Access, ClaimEnd};
use phase_pools::claim::ClaimState;
use std::process::Abort;

/// The shape of a row of 1 caller, 1 field and 1 cell. The first kind has slots 1 and 2, and the second has slot 3; what stands
/// past the kinds isn't looked at.
fn mixed(rt: &impl Abort) -> Shape
    ensures { result ≡ record { callers = 1; slots = 3; fields = 1; cells = 1; kinds = 2 ∷ 1 ∷ []; tops = 8192 } }
{
    Shape::of_kinds(1, [2, 1, 0, 5000], 2, 1, 1).expect(rt, "the numbers are in range")
}

/// The shape of a row of 1 caller, 2 fields and 3 cells, and of kinds with 1, 3, 2 and 4 slots.
fn four(rt: &impl Abort) -> Shape
    ensures { result ≡ record { callers = 1; slots = 10; fields = 2; cells = 3; kinds = 1 ∷ 3 ∷ 2 ∷ 4 ∷ []; tops = 8192 } }
{
    Shape::of_kinds(1, [1, 3, 2, 4], 4, 2, 3).expect(rt, "the numbers are in range")
}

#[test]
fn words_of_two_kinds_stand_where_the_layout_says(rt: HostRuntime) {
    let shape = mixed(&rt);
    assert!(rt; [shape.kinds(), shape.slots(), shape.word_count()] == [2, 3, 26]);
    assert!(rt; [shape.status_at(3), shape.field_at(3, 0), shape.cell_at(0)] == [14, 18, 19]);
    assert!(rt; [shape.head_at(0), shape.head_at(1)] == [20, 21]);
    assert!(rt; [shape.link_at(0), shape.link_at(3)] == [22, 25]);
    assert!(rt; [shape.kind_of(1), shape.kind_of(2), shape.kind_of(3)] == [0, 0, 1]);
    assert!(rt; [shape.slots_of(0), shape.slots_of(1)] == [2, 1]);
}

#[test]
fn words_of_four_kinds_stand_where_the_layout_says(rt: HostRuntime) {
    let shape = four(&rt);
    assert!(rt; [shape.kinds(), shape.slots(), shape.word_count()] == [4, 10, 62]);
    assert!(rt; [shape.status_at(10), shape.field_at(10, 1), shape.cell_at(2)] == [21, 43, 46]);
    assert!(rt; [shape.head_at(0), shape.head_at(3)] == [47, 50]);
    assert!(rt; [shape.link_at(0), shape.link_at(10)] == [51, 61]);
    assert!(rt; [shape.kind_of(1), shape.kind_of(2), shape.kind_of(4)] == [0, 1, 1]);
    assert!(rt; [shape.kind_of(5), shape.kind_of(6), shape.kind_of(7)] == [2, 2, 3]);
    assert!(rt; shape.kind_of(10) == 3);
    assert!(rt; [shape.slots_of(0), shape.slots_of(1), shape.slots_of(3)] == [1, 3, 4]);
}

fn fault_of(callers: u64, slots: [u64; 4], kinds: u64) -> Option<ShapeFault> {
    Shape::of_kinds(callers, slots, kinds, 1, 1).err()
}

#[test]
fn kinds_have_limits(rt: HostRuntime) {
    assert!(rt; fault_of(1, [1, 1, 1, 1], 4).is_none());
    assert!(rt; fault_of(0, [1, 1, 1, 1], 0) == Some(ShapeFault::Callers));
    assert!(rt; fault_of(1, [0, 0, 0, 0], 0) == Some(ShapeFault::Kinds));
    assert!(rt; fault_of(1, [1, 1, 1, 1], 5) == Some(ShapeFault::Kinds));
    assert!(rt; fault_of(1, [1, 1, 1, 1], 4294967297) == Some(ShapeFault::Kinds));
    assert!(rt; Shape::of_kinds(1, [1, 0, 0, 0], 1, 0, 1).err() == Some(ShapeFault::Fields));
}

#[test]
fn slots_of_kinds_have_limits(rt: HostRuntime) {
    assert!(rt; fault_of(1, [1, 0, 1, 1], 1).is_none());
    assert!(rt; fault_of(1, [1, 0, 1, 1], 2) == Some(ShapeFault::Slots));
    assert!(rt; fault_of(1, [4095, 1, 0, 0], 2).is_none());
    assert!(rt; fault_of(1, [4096, 1, 0, 0], 2) == Some(ShapeFault::Slots));
    assert!(rt; fault_of(1, [4097, 0, 0, 0], 1) == Some(ShapeFault::Slots));
    assert!(rt; fault_of(1, [1024, 1024, 1024, 1024], 4).is_none());
    assert!(rt; fault_of(1, [18446744073709551615, 2, 0, 0], 2) == Some(ShapeFault::Slots));
}

/// The words of a row of two kinds, all 0 but the phase, the warning, the statuses of null and of slots 1 to 3, and both heads.
fn mixed_row(phase: u64, statuses: [u64; 3], heads: [u64; 2]) -> [u64; 26] {
    let mut words = [0; 26];
    words[0] = phase;
    words[2] = phase;
    words[11] = 5;
    words[12] = statuses[0];
    words[13] = statuses[1];
    words[14] = statuses[2];
    words[20] = heads[0];
    words[21] = heads[1];
    words
}

/// The accesses of a claim of the first kind, whose first sweep frees slot 3, which is of the second.
fn claim_of_first_kind() -> [Access; 34] {
    let mut accesses = [load(20); 34];
    accesses[1] = load(0);
    accesses[2] = exchange(0, 1, 2);
    accesses[3] = raise(2, 2);
    accesses[12] = load(14);
    accesses[13] = exchange(14, 6, 8);
    accesses[14] = load(21);
    accesses[15] = store(25, 0);
    accesses[16] = exchange(21, 8192, 16387);
    accesses[17] = load(13);
    accesses[18] = load(12);
    accesses[20] = load(0);
    accesses[21] = exchange(0, 2, 3);
    accesses[22] = raise(2, 3);
    for r in 0..8u32 {
        accesses[r as usize + 4] = load(r + 3);
        accesses[r as usize + 23] = load(r + 3);
    }
    accesses[31] = load(14);
    accesses[32] = load(13);
    accesses[33] = load(12);
    accesses
}

/// Slots 1 and 2 are used up, and slot 3 was retired in phase 1. A free slot of the second kind doesn't serve a claim of the first;
/// a claim of the second takes it at once.
#[test]
fn sweep_frees_a_slot_of_another_kind(rt: HostRuntime) {
    let shape = mixed(&rt);
    let mut words = mixed_row(1, [5, 5, 6], [8192, 8192]);
    let mut claim = ClaimState::begin(&shape, 0);
    let expected = claim_of_first_kind();
    assert!(rt; claims_on(&rt, &shape, 5, &mut claim, &mut words, &expected).is_none());
    let last_look = [load(20)];
    assert!(rt;
        claims_on(&rt, &shape, 5, &mut claim, &mut words, &last_look) == Some(ClaimEnd::Full)
    );
    assert!(rt; words == mixed_row(3, [5, 5, 8], [8192, 16387]));
    let taken = [load(21), load(25), exchange(21, 16387, 16384), store(14, 9)];
    assert!(rt; claims(&rt, &shape, 5, 1, &mut words, &taken) == Some(ClaimEnd::Claimed(3)));
    assert!(rt; words == mixed_row(3, [5, 5, 9], [8192, 16384]));
}

/// The words of a row of 2 callers, 3 slots, 1 field and 1 cell in phase 5: what both callers have announced, and the statuses of
/// slots 1 to 3. No slot is on top.
fn announced_row(announced: [u64; 2], statuses: [u64; 3]) -> [u64; 35] {
    let mut words = [0; 35];
    words[0] = 5;
    words[3] = announced[0];
    words[4] = announced[1];
    words[21] = 5;
    words[22] = statuses[0];
    words[23] = statuses[1];
    words[24] = statuses[2];
    words[30] = 8192;
    words
}

/// Caller 1 has announced phase 4, in which slot 1 was retired; slot 2 was retired in phase 3. It withdraws before it sweeps, and so
/// both are freed.
#[test]
fn announcing_claim_withdraws_before_it_sweeps(rt: HostRuntime) {
    let shape = Shape::new(2, 3, 1, 1).expect(&rt, "the numbers are in range");
    let mut words = announced_row([0, 4], [18, 14, 21]);
    let mut claim = ClaimState::begin_announced(&shape, 0, 1);
    let sweeping = [
        load(30),
        store(4, 0),
        load(0),
        exchange(0, 5, 6),
        load(3),
        load(4),
        load(24),
        load(23),
        exchange(23, 14, 24),
        load(30),
        store(33, 0),
        exchange(30, 8192, 49154),
        load(22),
        exchange(22, 18, 24),
        load(30),
        store(32, 2),
        exchange(30, 49154, 49153),
    ];
    assert!(rt; claims_on(&rt, &shape, 9, &mut claim, &mut words, &sweeping).is_none());
    let taking = [
        load(30),
        load(32),
        exchange(30, 49153, 49154),
        store(22, 25),
    ];
    assert!(rt;
        claims_on(&rt, &shape, 9, &mut claim, &mut words, &taking) == Some(ClaimEnd::Claimed(1))
    );
    assert!(rt; [words[0], words[4], words[22], words[23]] == [6, 0, 25, 24]);
}

/// Caller 0 has announced phase 4 and holds back slot 1, which was retired then: only slot 2 is freed.
#[test]
fn announced_phase_holds_back_what_was_retired_in_it(rt: HostRuntime) {
    let shape = Shape::new(2, 3, 1, 1).expect(&rt, "the numbers are in range");
    let mut words = announced_row([4, 5], [18, 14, 21]);
    let mut claim = ClaimState::begin_announced(&shape, 0, 1);
    let expected = [
        load(30),
        store(4, 0),
        load(0),
        exchange(0, 5, 6),
        load(3),
        load(4),
        load(24),
        load(23),
        exchange(23, 14, 24),
        load(30),
        store(33, 0),
        exchange(30, 8192, 49154),
        load(22),
        load(30),
        load(33),
        exchange(30, 49154, 49152),
        store(23, 25),
    ];
    assert!(rt;
        claims_on(&rt, &shape, 9, &mut claim, &mut words, &expected) == Some(ClaimEnd::Claimed(2))
    );
    assert!(rt; [words[0], words[3], words[22], words[23]] == [6, 4, 18, 25]);
}
