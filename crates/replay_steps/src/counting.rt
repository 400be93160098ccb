//! How many accesses a turn still counts, and how many steps are made.

ghost use Rattle.std.specs.Prelude.{◌≡◌, ◌<◌, ◌+◌, nat_le};
ghost use Rattle.core_runs.specs.Replays.{is_of_kind};
ghost use Rattle.replay_steps.specs.Turns.{left_after};

use schedule_turns::StepKind;

/// Whether an access of this kind is wanted.
pub(crate) fn is_of_kind(kind: StepKind, wanted: Option<StepKind>) -> bool
    ensures { result ≡ is_of_kind kind wanted }
{
    match wanted {
        None => false,
        Some(StepKind::Load) => matches!(kind, StepKind::Load),
        Some(StepKind::Check) => matches!(kind, StepKind::Check),
        Some(StepKind::Exchange) => matches!(kind, StepKind::Exchange),
    }
}

/// How many accesses of the kind are left after a look at whether one is wanted; none if it is the last.
pub fn left_after(wanted: bool, left: u32) -> Option<u32>
    ensures { result ≡ left_after wanted left }
{
    if !wanted {
        return Some(left);
    }
    if left <= 1 { None } else { Some(left - 1) }
}

/// Whether the limit of steps is reached.
#[inline(always)]
pub fn is_at_limit(limit: u64, steps: u64) -> bool
    ensures { result ≡ nat_le limit steps }
{
    limit <= steps
}

/// How many steps are made after one more. The limit isn't reached before it.
#[inline(always)]
pub fn one_more(limit: u64, steps: u64) -> u64
    requires { steps < limit }
    ensures { result ≡ steps + 1 }
{
    steps + 1
}
