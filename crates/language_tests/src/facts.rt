//! Small graphs whose states were found by hand.

ghost use Rattle.std.specs.Prelude.{◌<◌, ◌↔◌, length, All, IsTrue};
ghost use Rattle.std.specs.Option.{ForSome};
ghost use Rattle.path_facts.specs.Facts.{IsMove};

use norm_lang::Fork;
use path_facts::{Facts, Move};
use std::alloc::{AllocError, Global};
use std::process::Abort;

/// The states after an instruction that leaves the state as it is.
const SAME: [u8; 4] = [0, 1, 2, 3];

/// A machine of four states that counts, and stays at 3.
const NEXT: [u8; 4] = [1, 2, 3, 3];

const fn end(after: [u8; 4]) -> Move {
    Move {
        fork: Fork {
            first: None,
            second: None,
        },
        after,
    }
}

const fn to(first: u32, after: [u8; 4]) -> Move {
    Move {
        fork: Fork {
            first: Some(first),
            second: None,
        },
        after,
    }
}

const fn to_both(first: u32, second: u32, after: [u8; 4]) -> Move {
    Move {
        fork: Fork {
            first: Some(first),
            second: Some(second),
        },
        after,
    }
}

fn is_inside(to: Option<u32>, count: usize) -> bool
    ensures { IsTrue result ↔ ForSome to (λ t. t < count) }
{
    match to {
        None => true,
        Some(to) => (to as usize) < count,
    }
}

fn are_states(states: &[u8]) -> bool
    ensures { IsTrue result ↔ All (λ state. state < 4) states.now }
{
    states.iter().all(|state| *state < 4)
}

fn is_move(one: &Move, count: usize) -> bool
    ensures { IsTrue result ↔ IsMove count one.now }
{
    is_inside(one.fork.first, count) && is_inside(one.fork.second, count) && are_states(&one.after)
}

/// Whether these are moves among each other.
fn are_moves(moves: &[Move]) -> bool
    ensures { IsTrue result → All (IsMove (length moves.now)) moves.now }
{
    let count = moves.len();
    moves.iter().all(|one| is_move(one, count))
}

/// The facts of moves, which are looked at first.
fn facts_of(
    rt: &impl Abort,
    alloc: Global,
    moves: &[Move],
    start: u8,
) -> Result<Facts, AllocError> {
    assert!(rt; 0 < moves.len() && moves.len() < 16 && start < 4);
    assert!(rt; are_moves(moves));
    Facts::of_moves(alloc, moves, start)
}

/// The answers for the four states at an instruction.
fn states(facts: &Facts, at: u32) -> [bool; 4] {
    let at = at as usize;
    [
        facts.comes_in(at, 0),
        facts.comes_in(at, 1),
        facts.comes_in(at, 2),
        facts.comes_in(at, 3),
    ]
}

/// At each of these instructions the facts of moves tell these four answers.
fn expect_states(
    rt: &impl Abort,
    alloc: Global,
    moves: &[Move],
    start: u8,
    rows: &[(u32, [bool; 4])],
) -> Result<(), AllocError> {
    let facts = facts_of(rt, alloc, moves, start)?;
    for (at, wanted) in rows {
        assert!(rt; states(&facts, *at) == *wanted);
    }
    Ok(())
}

#[test]
fn a_state_is_that_before_the_instruction(rt: HostRuntime) -> Result<(), AllocError> {
    let moves = [to(1, NEXT), end(NEXT)];
    let rows = [
        (0, [true, false, false, false]),
        (1, [false, true, false, false]),
    ];
    expect_states(&rt, rt.alloc(), &moves, 0, &rows)?;
    let begun_later = [
        (0, [false, false, true, false]),
        (1, [false, false, false, true]),
    ];
    expect_states(&rt, rt.alloc(), &moves, 2, &begun_later)
}

#[test]
fn two_paths_join_with_both_states(rt: HostRuntime) -> Result<(), AllocError> {
    // 0 branches; by 1 the state is 1 at 3, by 2 it is 0 there; 4 is after the join.
    let moves = [
        to_both(1, 2, SAME),
        to(3, [1, 1, 1, 1]),
        to(3, SAME),
        to(4, SAME),
        end(SAME),
    ];
    let rows = [
        (1, [true, false, false, false]),
        (2, [true, false, false, false]),
        (3, [true, true, false, false]),
        (4, [true, true, false, false]),
    ];
    expect_states(&rt, rt.alloc(), &moves, 0, &rows)
}

#[test]
fn a_cycle_is_gone_round_till_no_state_is_new(rt: HostRuntime) -> Result<(), AllocError> {
    // 0 leads into the cycle of 1 and 2, which counts once a round; 3 is after it.
    let moves = [to(1, SAME), to_both(2, 3, SAME), to(1, NEXT), end(SAME)];
    let rows = [
        (0, [false, true, false, false]),
        (1, [false, true, true, true]),
        (2, [false, true, true, true]),
        (3, [false, true, true, true]),
    ];
    expect_states(&rt, rt.alloc(), &moves, 1, &rows)
}

#[test]
fn the_start_may_be_come_back_to(rt: HostRuntime) -> Result<(), AllocError> {
    let moves = [to_both(0, 1, [2, 0, 1, 3]), end(SAME)];
    let rows = [
        (0, [true, true, true, false]),
        (1, [true, true, true, false]),
    ];
    expect_states(&rt, rt.alloc(), &moves, 0, &rows)
}

#[test]
fn an_unreached_instruction_has_no_state(rt: HostRuntime) -> Result<(), AllocError> {
    // 1 and 2 lead to each other and to 3, and nothing leads to them; there is no 4.
    let moves = [to(3, SAME), to(2, NEXT), to_both(1, 3, NEXT), end(SAME)];
    let rows = [
        (1, [false; 4]),
        (2, [false; 4]),
        (3, [true, false, false, false]),
        (4, [false; 4]),
    ];
    expect_states(&rt, rt.alloc(), &moves, 0, &rows)
}
