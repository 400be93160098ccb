//! Whether the replies that are claimed of a caller agree with a run.

ghost use Rattle.std.specs.Prelude.{◌≡◌, ◌<◌, length, slice_get};
ghost use Rattle.event_judge.specs.Judging.{are_same, is_one_more, agrees, is_idle};

use source_machine::{SourceReply, SourceState};

/// Whether replies are the same, in order.
fn are_same(made: &[SourceReply], claimed: &[SourceReply]) -> bool
    ensures { result ≡ are_same made.now claimed.now }
{
    made == claimed
}

/// Whether the replies are those claimed, and one more.
fn is_one_more(made: &[SourceReply], claimed: &[SourceReply]) -> bool
    ensures { result ≡ is_one_more made.now claimed.now }
{
    let count = claimed.len();
    if made.len() != count + 1 {
        return false;
    }
    are_same(&made[..count], claimed)
}

/// Whether a caller that has begun so many calls, and is idle or not, agrees with the replies that are claimed.
pub(crate) fn agrees(
    begun: usize,
    idle: bool,
    made: &[SourceReply],
    claimed: &[SourceReply],
) -> bool
    ensures { result ≡ agrees begun idle made.now claimed.now }
{
    let count = claimed.len();
    (begun == count && idle && are_same(made, claimed))
        || (begun == count + 1 && (are_same(made, claimed) || is_one_more(made, claimed)))
}

/// Whether a caller is idle.
pub(crate) fn is_idle(state: &SourceState, caller: u32) -> bool
    requires { caller < length state.now.callers }
    ensures { result ≡ is_idle (slice_get state.now.callers caller) }
{
    state.standing(caller).is_none()
}
