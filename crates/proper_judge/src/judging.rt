//! Judging the events of a run.

ghost use Rattle.std.specs.Prelude.{◌≤◌, IfOk};
ghost use Rattle.proper_judge.specs.Judging.{Judged, IsFirstKept};

use crate::breach::Breach;
use crate::event::{Kept, breach_of, is_made, judge_event};
use crate::marks::Marks;
use crate::numbers::Numbers;
use crate::runs::KeptRun;
use norm_check::Normal;
use norm_lang::list::Listed;
use source_machine::{SourceEvent, SourceState};
use std::alloc::{AllocError, Global};

/// What the events of a run show.
#[derive(Clone, Copy)]
pub enum SoFar {
    /// They are a run, and each state of it is proper.
    Proper,
    /// The state after the event at this place, counted from 0, shows that the text isn't proper.
    Improper { breach: Breach, at: u64 },
    /// The event at this place isn't enabled; the states before it are proper.
    NotEnabled { at: u64 },
}

/// What is kept at the start of callers none of which has begun.
pub(crate) fn first_kept(alloc: Global, callers: u32) -> Result<Kept, AllocError>
    ensures { IfOk result (IsFirstKept callers) }
{
    let mut runs = Vec::new(alloc);
    for _ in 0..callers {
        runs.push(KeptRun {
            got: Listed::empty(alloc),
            before: 0,
        })?;
    }
    Ok(Kept {
        runs,
        retirements: Numbers::none(alloc),
        marks: Marks::none(alloc),
    })
}

/// Whether the events, from the start of so many idle callers, at least one, are a run each of whose states is proper.
///
/// # Errors
/// `AllocError` if memory runs out.
pub fn judge_run(
    alloc: Global,
    normal: &Normal,
    callers: u32,
    events: &[SourceEvent],
) -> Result<SoFar, AllocError>
    requires { 1 ≤ callers }
    ensures { IfOk result (Judged normal.now callers events.now) }
{
    let mut state = SourceState::start(alloc, normal, callers)?;
    let mut kept = first_kept(alloc, callers)?;
    for (at, event) in events.iter().enumerate() {
        let told = judge_event(alloc, normal, event, &mut state, &mut kept)?;
        if !is_made(told) {
            return Ok(SoFar::NotEnabled { at: at as u64 });
        }
        if let Some(breach) = breach_of(told) {
            return Ok(SoFar::Improper {
                breach,
                at: at as u64,
            });
        }
    }
    Ok(SoFar::Proper)
}
