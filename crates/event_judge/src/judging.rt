//! Judging a run.

ghost use Rattle.std.specs.Prelude.{◌≡◌, ◌<◌, ◌≤◌, true, length, None, IfOk, OnErr};
ghost use Rattle.source_machine.specs.Calls.{IsOfSourceRun};
ghost use Rattle.source_machine.specs.Run.{is_enabled};
ghost use Rattle.event_judge.specs.Judging.{first_progress, walked, Tells, Makes, event_flaw, agrees_after, found_from, verdict_on};

use crate::agreement::{agrees, is_idle};
use crate::calls::{begun_by, count};
use crate::verdict::Verdict;
use documents::Script;
use norm_check::Normal;
use norm_lang::list::Listed;
use source_machine::{SourceEvent, SourceReply, SourceState, StepError, step};
use std::alloc::{AllocError, Global};

/// What events so far have led to: the state, and how many calls each caller has begun.
#[derive(Drop)]
pub(crate) struct Progress {
    pub(crate) state: SourceState,
    pub(crate) begun: Listed<usize>,
}

/// Before the first event.
fn first_progress(
    alloc: Global,
    normal: &Normal,
    scripts: &[Script],
) -> Result<Progress, AllocError>
    requires some { 1 ≤ length scripts.now }
    requires few { length scripts.now ≤ 8 }
    ensures first { IfOk result (λ p. p ≡ first_progress normal.now scripts.now) }
    ensures runs { IfOk result (λ p. IsOfSourceRun normal.now p.state) }
    ensures callers { IfOk result (λ p. length p.state.callers ≡ length scripts.now) }
{
    let count = scripts.len();
    let state = SourceState::start(alloc, normal, count as u32)?;
    let begun = Listed::from_vec(vec![in alloc; 0; count]?);
    Ok(Progress { state, begun })
}

/// Makes an event, if it is enabled. Only then can memory run out.
fn make(
    alloc: Global,
    normal: &Normal,
    event: &SourceEvent,
    state: &mut SourceState,
) -> Result<bool, AllocError>
    requires { IsOfSourceRun normal.now state.old }
    ensures made { IfOk result (Makes normal.now state.old event.now state.new) }
    ensures err { OnErr result (is_enabled normal.now state.old event.now ≡ true) }
    ensures runs { IsOfSourceRun normal.now state.new }
    ensures callers { length state.new.callers ≡ length state.old.callers }
{
    match step(alloc, state, normal, event) {
        Ok(()) => Ok(true),
        Err(StepError::NotEnabled) => Ok(false),
        Err(StepError::Memory) => Err(AllocError),
    }
}

/// Makes an event that begins no other call than the next, if it is enabled; otherwise tells the number of what it shows.
/// Memory can run out only at an event that shows nothing.
fn judge_event(
    alloc: Global,
    normal: &Normal,
    scripts: &[Script],
    event: &SourceEvent,
    progress: &mut Progress,
) -> Result<Option<u8>, AllocError>
    requires { IsOfSourceRun normal.now progress.old.state }
    ensures tells { IfOk result (Tells normal.now scripts.now progress.old event.now progress.new) }
    ensures err { OnErr result (event_flaw normal.now scripts.now progress.old event.now ≡ None) }
    ensures runs { IsOfSourceRun normal.now progress.new.state }
    ensures callers { length progress.new.state.callers ≡ length progress.old.state.callers }
{
    let ops = normal.text().ops.items();
    if !count(ops, scripts, &mut progress.begun, event) {
        return Ok(Some(2));
    }
    if !make(alloc, normal, event, &mut progress.state)? {
        return Ok(Some(1));
    }
    Ok(None)
}

/// Where events lead, or the first that shows 2 or 1.
fn walk(
    alloc: Global,
    normal: &Normal,
    scripts: &[Script],
    events: &[SourceEvent],
    first: Progress,
) -> Result<Result<Progress, Verdict>, AllocError>
    requires { IsOfSourceRun normal.now first.state }
    ensures walks { IfOk result (λ w. w ≡ walked normal.now scripts.now 0 first events.now) }
    ensures callers { IfOk result (λ w. IfOk w (λ p. length p.state.callers ≡ length first.state.callers)) }
{
    let mut progress = first;
    for (at, event) in events.iter().enumerate() {
        match judge_event(alloc, normal, scripts, event, &mut progress)? {
            None => {}
            Some(number) => {
                return Ok(Err(Verdict::Rejected {
                    number,
                    at: at as u64,
                }));
            }
        }
    }
    Ok(Ok(progress))
}

/// Whether a caller agrees with the replies that are claimed of it.
fn agrees_after(progress: &Progress, caller: usize, claimed: &[SourceReply]) -> bool
    requires known { caller < length progress.now.state.callers }
    requires few { caller < 8 }
    ensures { result ≡ agrees_after progress.now caller claimed.now }
{
    let begun = begun_by(progress.begun.items(), caller);
    let idle = is_idle(&progress.state, caller as u32);
    agrees(begun, idle, progress.state.replies(caller as u32), claimed)
}

/// What is found if no event shows 1 or 2.
fn found(progress: &Progress, claims: &[Listed<SourceReply>]) -> Verdict
    requires known { length claims.now ≡ length progress.now.state.callers }
    requires few { length claims.now ≤ 8 }
    ensures { result ≡ found_from 0 progress.now claims.now }
{
    for (caller, claimed) in claims.iter().enumerate() {
        if !agrees_after(progress, caller, claimed.items()) {
            return Verdict::Rejected {
                number: 3,
                at: caller as u64,
            };
        }
    }
    Verdict::Accepted
}

/// What is found of events and of the replies that are claimed of each caller, if the callers, 1 to 8, were to make the calls of
/// these scripts on this text. `laws` says what a verdict means.
///
/// # Errors
///
/// `AllocError` if memory runs out.
pub fn judge_events(
    alloc: Global,
    normal: &Normal,
    scripts: &[Script],
    events: &[SourceEvent],
    claims: &[Listed<SourceReply>],
) -> Result<Verdict, AllocError>
    requires some { 1 ≤ length scripts.now }
    requires few { length scripts.now ≤ 8 }
    requires claims { length claims.now ≡ length scripts.now }
    ensures { IfOk result (λ verdict. verdict ≡ verdict_on normal.now scripts.now events.now claims.now) }
{
    let first = first_progress(alloc, normal, scripts)?;
    match walk(alloc, normal, scripts, events, first)? {
        Ok(progress) => Ok(found(&progress, claims)),
        Err(verdict) => Ok(verdict),
    }
}
