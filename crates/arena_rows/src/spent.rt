//! Replays of a document's scripts: which callers have a call that was given its fuel of steps and hasn't ended.

ghost use Rattle.script_plans.specs.Plans.{IsReady};

use crate::plans::planned;
use oa_core::{CoreState, Entry, replay};
use row_replies::add_replies;
use row_spelling::RowError;
use script_plans::Plan;
use std::alloc::Global;
use std::fmt::Write;

/// Each script to its end, in the order of the callers' numbers.
fn replayed(alloc: Global, plan: &Plan) -> Result<CoreState, RowError>
    requires { IsReady plan.now }
{
    let state = replay(
        alloc,
        &plan.barred,
        &plan.setting,
        plan.scripts.items(),
        plan.fuel,
        &[],
    );
    match state {
        Ok(state) => Ok(state),
        Err(_) => Err(RowError::Wrong),
    }
}

/// Whether a call of a caller is spent, and its replies.
fn add_caller(
    out: &mut String,
    state: &CoreState,
    caller: usize,
    entry: &Entry,
) -> Result<(), RowError> {
    let Ok(caller) = u32::try_from(caller) else {
        return Err(RowError::Wrong);
    };
    let spent = state.is_spent(caller);
    write!(out, "spent {spent}, ")?;
    Ok(add_replies(out, entry.replies())?)
}

/// How a replay has ended, caller by caller.
fn add_state(out: &mut String, state: &CoreState) -> Result<(), RowError> {
    let phase = state.phase();
    writeln!(out, "phase {phase}")?;
    for (caller, entry) in state.entries().iter().enumerate() {
        add_caller(out, state, caller, entry)?;
    }
    Ok(())
}

/// How the callers of a document's scripts stand at the end of its replay.
pub(crate) fn spent(alloc: Global, bytes: &[u8], out: &mut String) -> Result<(), RowError> {
    let Some(plan) = planned(alloc, bytes) else {
        return Err(RowError::Wrong);
    };
    let ended = replayed(alloc, &plan);
    drop(plan);
    let state = ended?;
    let added = add_state(out, &state);
    drop(state);
    added
}
