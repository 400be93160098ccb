//! The history of a set.

ghost use Rattle.std.specs.Prelude.{◌≤◌, IfOk};
ghost use Rattle.set_laws.specs.Sets.{IsSetHistory, SetLegal};

use crate::reader::SetReader;
use norm_check::{CheckError, check};
use norm_lang::list::Listed;
use norm_lang::shipped_set;
use source_histories::{Deed, record};
use source_machine::{RunError, SourceEvent};
use std::alloc::Global;

/// The deeds of a set's calls, in the order of their moments.
pub type History = Listed<Deed>;

/// The history of a run of the set with so many buckets, 1 to 64, by at least one caller: one deed for each call that ended
/// with a number, and for each insert or removal that runs and whose first exchange in the table succeeded.
///
/// # Errors
/// `NotEnabled` with the place of the first event that isn't enabled, and `Memory` if memory runs out.
pub fn set_history(
    alloc: Global,
    buckets: u32,
    callers: u32,
    events: &[SourceEvent],
) -> Result<History, RunError>
    requires some_buckets { 1 ≤ buckets }
    requires most { buckets ≤ 64 }
    requires some { 1 ≤ callers }
    ensures history { IsSetHistory buckets callers events.now result }
    ensures legal { IfOk result (λ deeds. SetLegal deeds) }
{
    let text = shipped_set(alloc, buckets)?;
    match check(alloc, text) {
        Err(CheckError::Memory) => Err(RunError::Memory),
        Err(CheckError::Refused(_)) => unreachable!(),
        Ok(normal) => record(alloc, &SetReader {}, &normal, callers, events),
    }
}
