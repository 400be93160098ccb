//! The keys of a caller, round by round.

ghost use Rattle.std.specs.Prelude.{◌≡◌, ◌<◌, ◌+◌, ◌/◌};
ghost use Rattle.oa_words.specs.declared.limits.TheConstants.{MOST_CALLERS};
ghost use Rattle.script_driver.specs.Workload.{next_seed, key_from};
ghost use Rattle.script_driver.specs.Rounds.{round_at};

/// Each number x of a caller's sequence gives the next, the remainder of 75 x + 74 by 65,537, which is a prime: a linear
/// congruential sequence.
pub(crate) const MULTIPLIER: u64 = 75;

pub(crate) const INCREMENT: u64 = 74;

pub(crate) const MODULUS: u64 = 65_537;

/// How many keys a caller has: a number of its sequence gives one by its remainder.
pub(crate) const KEYS: u64 = 50;

/// How far the keys of a caller are from those of the next, which is more than the keys of each, so that no two share one.
pub(crate) const KEYS_APART: u64 = 1000;

/// A round of a caller: its number of the sequence, its key, and the key of the round before.
#[derive(Clone, Copy)]
pub(crate) struct Round {
    seed: u64,
    pub(crate) key: u64,
    pub(crate) before: u64,
}

/// The number after a number of the sequence.
fn next_seed(seed: u64) -> u64
    requires { seed < MODULUS }
    ensures { result ≡ next_seed seed }
{
    (MULTIPLIER * seed + INCREMENT) % MODULUS
}

/// The key that a number of the sequence gives a caller.
fn key_from(caller: u32, seed: u64) -> u64
    ensures { result ≡ key_from caller seed }
{
    KEYS_APART * (caller as u64) + seed % KEYS
}

/// The first round, whose own key stands for the one before.
pub(crate) fn first_round(caller: u32) -> Round
    ensures { result ≡ round_at caller 0 }
{
    let seed = caller as u64 + 1;
    let key = key_from(caller, seed);
    Round {
        seed,
        key,
        before: key,
    }
}

/// The round after a round.
#[tactic(auto, using(crate::proofs::Sequence::seed_below, crate::proofs::Sequence::round_next))]
fn next_round(caller: u32, j: u32, round: Round) -> Round
    requires caller { caller < MOST_CALLERS }
    requires round { round ≡ round_at caller j }
    ensures { result ≡ round_at caller (j + 1) }
{
    let seed = next_seed(round.seed);
    Round {
        seed,
        key: key_from(caller, seed),
        before: round.key,
    }
}

/// The round of the call after call `i`, whose own round is given.
#[tactic(auto, using(crate::proofs::Sequence::next_in_round))]
pub(crate) fn round_after(caller: u32, i: u32, round: Round) -> Round
    requires caller { caller < MOST_CALLERS }
    requires round { round ≡ round_at caller (i / 4) }
    ensures { result ≡ round_at caller ((i + 1) / 4) }
{
    if i % 4 == 3 {
        next_round(caller, i / 4, round)
    } else {
        round
    }
}
