//! Laws over every list of enabled events.

ghost use Rattle.core_runs.specs.Machine.{OfAll};
ghost use Rattle.core_runs.specs.caller_laws.Laws.{ForRuns};
ghost use Rattle.claim_laws.specs.CallSteps.{StepsAreCounted};
ghost use Rattle.claim_laws.specs.Causes.{RepliesAreCaused};
ghost use Rattle.claim_laws.specs.Full.{FullTakesClaims};
ghost use Rattle.claim_laws.specs.Claimed.{ClaimsAreCounted, UnclaimedIsUntouched};
ghost use Rattle.claim_laws.specs.Publishing.{FullTakesCalls};

/// Of a target that callers may run and a setting that fits it: a reply is `Phases` exactly if a sweep of its call loaded the
/// last phase, and `Full` exactly if a claim of it made two sweeps and found no slot in its third look.
pub fn replies_are_caused()
    ensures { ForRuns RepliesAreCaused }
{}

/// Of the same: if a caller was told that the pool is full, its call gave up at a `new` of a kind whose initial nodes, together
/// with the claims of all callers, are at least its slots.
pub fn full_takes_claims()
    ensures { ForRuns FullTakesClaims }
{}

/// Of the same: each caller has counted the slots that it claimed; and a slot that held no initial node and was never claimed
/// is ready since the start, and no register, guard, cradle, field, root or routine names it: only the chain of its kind does.
pub fn slots_are_claimed()
    ensures counted { ForRuns ClaimsAreCounted }
    ensures untouched { ForRuns UnclaimedIsUntouched }
{}

/// Of every target and setting: the calls whose steps these laws speak of are those that the caller took, each with as many
/// steps as are counted for it.
pub fn steps_are_counted()
    ensures { OfAll StepsAreCounted }
{}

/// Of a target that callers may run and a setting that fits it: suppose that no operation has more than one `new`, and that no
/// call begins again once it has published its node. If a caller was told that the pool is full, its call gave up at a `new` of
/// a kind whose initial nodes, together with the calls with a `new` of all callers, are more than its slots.
pub fn full_takes_calls()
    ensures { ForRuns FullTakesCalls }
{}
