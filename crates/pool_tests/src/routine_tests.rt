//! The first accesses of routines, as the code makes them.

use crate::rows::{exchange, load, raise, row, small, store};
use crate::runs::{claims_on, sweeps, sweeps_on};
use oa_words::shape::Shape;
use phase_pools::access::{Access, ClaimEnd, SweepEnd};
use phase_pools::claim::ClaimState;
use phase_pools::retire::RetireState;
use phase_pools::sweep::SweepState;

/// Slot 1 is on top, and slot 2 below it, in phase 1. The exchange alone takes a slot, if the head is as it was loaded.
#[test]
fn top_slot_is_claimed(rt: HostRuntime) {
    let shape = small(&rt);
    let mut words = row(1, 0, [4, 4, 4], [8193, 2, 0, 0]);
    let mut claim = ClaimState::begin(&shape, 0);
    let loads = [load(24), load(26)];
    assert!(rt; claims_on(&rt, &shape, 5, &mut claim, &mut words, &loads).is_none());
    assert!(rt; !claim.takes(&shape, 8194));
    assert!(rt; claim.takes(&shape, 8193));
    let taken = [exchange(24, 8193, 8194)];
    assert!(rt; claims_on(&rt, &shape, 5, &mut claim, &mut words, &taken).is_none());
    assert!(rt; !claim.takes(&shape, 8193));
    let used = [store(12, 5)];
    assert!(rt;
        claims_on(&rt, &shape, 5, &mut claim, &mut words, &used) == Some(ClaimEnd::Claimed(1))
    );
}

#[test]
fn sweep_ends_in_last_phase(rt: HostRuntime) {
    let shape = small(&rt);
    assert!(rt; sweeps(&rt, &shape, 5, &mut [5], &[load(0)]) == Some(SweepEnd::PhasesOver(5)));
}

/// The exchange finds that the phase is 3 by now, and a warning is raised all the same.
#[test]
fn sweep_raises_phase_before_warnings(rt: HostRuntime) {
    let shape = Shape::new(2, 3, 2, 1).expect(&rt, "the numbers are in range");
    assert!(rt; shape.callers() == 2);
    let mut words = [1, 0, 0, 0, 0];
    let mut sweep = SweepState::begin();
    assert!(rt; sweeps_on(&rt, &shape, 5, &mut sweep, &mut words, &[load(0)]).is_none());
    words[0] = 3;
    let raised = [exchange(0, 1, 2), raise(3, 2)];
    assert!(rt; sweeps_on(&rt, &shape, 5, &mut sweep, &mut words, &raised).is_none());
}

#[test]
fn retirement_stores_phase_that_it_loaded(rt: HostRuntime) {
    let shape = small(&rt);
    let mut retirement = RetireState::begin(2);
    assert!(rt; retirement.pending(&shape) == Access::Load { at: 0 });
    assert!(rt; !retirement.accept(&shape, 7));
    assert!(rt; retirement.pending(&shape) == Access::Store { at: 13, word: 30 });
    assert!(rt; retirement.accept(&shape, 0));
}
