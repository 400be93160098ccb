//! What verdicts mean.

ghost use Rattle.event_judge.specs.JudgingLaws.{AcceptedIsTrue, VerdictsAreRight};

/// A run is accepted exactly if its events are a source run that begins the calls of the scripts in order, and each caller's replies
/// agree with those that are claimed.
pub fn accepted_is_true()
    ensures { AcceptedIsTrue }
{}

/// Each verdict is given exactly if it is true: 1 if the first event that shows 1 or 2 isn't enabled, 2 if it begins another call than the
/// next of its caller's script, 3 if no event shows these and the replies of a caller, the first such, don't agree.
pub fn verdicts_are_right()
    ensures { VerdictsAreRight }
{}
