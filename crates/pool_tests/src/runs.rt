//! Routines that run alone on the words of a row, against the accesses that they have to make.

ghost use Rattle.std.specs.Prelude.{◌≡◌, ◌≤◌, ◌<◌, ◌^◌, length, IsTrue};
ghost use Rattle.phase_pools.specs.Ranges.{SweepInRange, IsStatus, IsHead};
ghost use Rattle.pool_tests.specs.Told.{address_in, IsTold, StandsInRow};

use oa_words::packed::{head_parts, status_parts};
use oa_words::shape::Shape;
use phase_pools::access::{Access, ClaimEnd, SweepEnd};
use phase_pools::claim::ClaimState;
use phase_pools::sweep::SweepState;
use std::process::Abort;

fn address_in(access: Access) -> u32
    ensures { result ≡ address_in access }
{
    match access {
        Access::Load { at } => at,
        Access::Store { at, .. } => at,
        Access::CompareExchange { at, .. } => at,
        Access::FetchMax { at, .. } => at,
    }
}

/// What the access leaves in a word, by what it found there.
fn left_by(access: Access, found: u64) -> u64 {
    match access {
        Access::Load { .. } => found,
        Access::Store { word, .. } => word,
        Access::CompareExchange {
            expected,
            replacement,
            ..
        } => {
            if found == expected {
                replacement
            } else {
                found
            }
        }
        Access::FetchMax { word, .. } => if found < word { word } else { found },
    }
}

fn is_status(last_phase: u64, word: u64) -> bool
    ensures { IsTrue result → IsStatus last_phase word }
{
    match status_parts(word) {
        Some((phase, _)) => phase <= last_phase,
        None => false,
    }
}

fn is_head(shape: &Shape, last_phase: u64, word: u64) -> bool
    ensures { IsTrue result → IsHead shape.now last_phase word }
{
    shape.kept();
    let slots = shape.slots();
    let (phase, top) = head_parts(word);
    phase <= last_phase && top <= slots as u64
}

/// Whether a routine may be told the word, by the address at which it stands.
fn is_told(shape: &Shape, last_phase: u64, at: u32, word: u64) -> bool
    ensures { IsTrue result → IsTold shape.now last_phase at word }
{
    let callers = shape.callers();
    shape.kept();
    let slots = shape.slots();
    if at <= 2 * callers {
        return word <= last_phase;
    }
    if at <= 10 * callers {
        return word <= slots as u64;
    }
    if at <= 10 * callers + (slots + 1) {
        return is_status(last_phase, word);
    }
    if shape.head_at(0) <= at && at < shape.link_at(0) {
        return is_head(shape, last_phase, word);
    }
    word <= slots as u64
}

/// The word at an address; the program stops if there is none, or a routine may not be told it.
fn word_told(rt: &impl Abort, shape: &Shape, last_phase: u64, words: &[u64], access: Access) -> u64
    ensures { IsTold shape.now last_phase (address_in access) result }
{
    let at = address_in(access);
    let word = words
        .get(at as usize)
        .copied()
        .expect(rt, "there is such a word");
    assert!(rt; is_told(shape, last_phase, at, word));
    word
}

fn leave(rt: &impl Abort, words: &mut [u64], access: Access, found: u64) {
    let at = address_in(access) as usize;
    assert!(rt; at < words.len());
    words[at] = left_by(access, found);
}

/// One access of a sweep, which has to be the expected one.
#[tactic(auto, using(crate::proofs::Told::sweep_told))]
fn sweep_step(
    rt: &impl Abort,
    shape: &Shape,
    last_phase: u64,
    sweep: &mut SweepState,
    words: &mut [u64],
    expected: Access,
) -> Option<SweepEnd>
    requires last { last_phase ≤ 2 ^ 50 }
    requires range { SweepInRange shape.now sweep.old.stage }
    ensures { SweepInRange shape.now sweep.new.stage }
{
    let access = sweep.pending(shape);
    assert!(rt; access == expected);
    let found = word_told(rt, shape, last_phase, words, access);
    leave(rt, words, access, found);
    sweep.accept(shape, last_phase, found)
}

/// One access of a claim, which has to be the expected one.
#[tactic(auto, using(crate::proofs::Told::claim_told))]
fn claim_step(
    rt: &impl Abort,
    shape: &Shape,
    last_phase: u64,
    claim: &mut ClaimState,
    words: &mut [u64],
    expected: Access,
) -> Option<ClaimEnd>
    requires last { last_phase ≤ 2 ^ 50 }
    requires stands { StandsInRow shape.now claim.old }
    ensures { StandsInRow shape.now claim.new }
{
    let access = claim.pending(shape, last_phase);
    assert!(rt; access == expected);
    let found = word_told(rt, shape, last_phase, words, access);
    leave(rt, words, access, found);
    claim.accept(shape, last_phase, found)
}

/// A sweep goes on with the expected accesses, and ends with the last of them, or not yet.
pub(crate) fn sweeps_on(
    rt: &impl Abort,
    shape: &Shape,
    last_phase: u64,
    sweep: &mut SweepState,
    words: &mut [u64],
    expected: &[Access],
) -> Option<SweepEnd>
    requires last { last_phase ≤ 2 ^ 50 }
    requires range { SweepInRange shape.now sweep.old.stage }
    ensures { SweepInRange shape.now sweep.new.stage }
{
    let mut end = None;
    for access in expected {
        assert!(rt; end.is_none());
        end = sweep_step(rt, shape, last_phase, sweep, words, *access);
    }
    end
}

/// A whole sweep makes the expected accesses, and ends with the last of them.
pub(crate) fn sweeps(
    rt: &impl Abort,
    shape: &Shape,
    last_phase: u64,
    words: &mut [u64],
    expected: &[Access],
) -> Option<SweepEnd>
    requires { last_phase ≤ 2 ^ 50 }
{
    let mut sweep = SweepState::begin();
    sweeps_on(rt, shape, last_phase, &mut sweep, words, expected)
}

/// A claim goes on with the expected accesses, and ends with the last of them, or not yet.
pub(crate) fn claims_on(
    rt: &impl Abort,
    shape: &Shape,
    last_phase: u64,
    claim: &mut ClaimState,
    words: &mut [u64],
    expected: &[Access],
) -> Option<ClaimEnd>
    requires last { last_phase ≤ 2 ^ 50 }
    requires stands { StandsInRow shape.now claim.old }
    ensures { StandsInRow shape.now claim.new }
{
    let mut end = None;
    for access in expected {
        assert!(rt; end.is_none());
        end = claim_step(rt, shape, last_phase, claim, words, *access);
    }
    end
}

/// A whole claim of a kind makes the expected accesses, and ends with the last of them.
pub(crate) fn claims(
    rt: &impl Abort,
    shape: &Shape,
    last_phase: u64,
    kind: u32,
    words: &mut [u64],
    expected: &[Access],
) -> Option<ClaimEnd>
    requires last { last_phase ≤ 2 ^ 50 }
    requires kind { kind < length shape.now.kinds }
{
    let mut claim = ClaimState::begin(shape, kind);
    claims_on(rt, shape, last_phase, &mut claim, words, expected)
}
