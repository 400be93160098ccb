//! The history of a queue.

ghost use Rattle.std.specs.Prelude.{◌≤◌, IfOk};
ghost use Rattle.queue_laws.specs.Queues.{IsQueueHistory, QueueLegal};

use crate::reader::QueueReader;
use norm_check::{CheckError, check};
use norm_lang::list::Listed;
use norm_lang::shipped_queue;
use source_histories::{Deed, record};
use source_machine::{RunError, SourceEvent};
use std::alloc::Global;

/// A deed of the queue: a `dequeue` has the argument 0, and no number for the reply that there is nothing.
pub type QueueDeed = Deed;

/// The deeds of the queue's calls, in the order of their moments.
pub type QueueHistory = Listed<QueueDeed>;

/// The history of a run of the queue by at least one caller: one deed for each call that ended with a number or with nothing,
/// and for each that runs and whose exchange of the list succeeded.
///
/// # Errors
/// `NotEnabled` with the place of the first event that isn't enabled, and `Memory` if memory runs out.
pub fn queue_history(
    alloc: Global,
    callers: u32,
    events: &[SourceEvent],
) -> Result<QueueHistory, RunError>
    requires some { 1 ≤ callers }
    ensures history { IsQueueHistory callers events.now result }
    ensures legal { IfOk result (λ deeds. QueueLegal deeds) }
{
    let text = shipped_queue(alloc)?;
    match check(alloc, text) {
        Err(CheckError::Memory) => Err(RunError::Memory),
        Err(CheckError::Refused(_)) => unreachable!(),
        Ok(normal) => record(alloc, &QueueReader {}, &normal, callers, events),
    }
}
