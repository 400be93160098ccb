//! Scripts and documents.

ghost use Rattle.std.specs.Prelude.{◌≡◌, ◌≤◌, ◌<◌, IfOk};
ghost use Rattle.documents.specs.DocumentLimits.{most_calls, IsWithinDocumentLimits};
ghost use Rattle.oa_words.specs.declared.limits.TheConstants.{MOST_CALLERS};
ghost use Rattle.script_plans.specs.Plans.{IsRunnable};
ghost use Rattle.script_driver.specs.Workload.{key_call, round_call, script_of, scripts_of, set_document, workload_document};

use crate::laws::{parts_are_within_limits, parts_can_be_run};
use crate::rounds::{first_round, round_after};
use documents::limits::{DEFAULT_FIRST, DEFAULT_FUEL, DEFAULT_LAST};
use documents::{Document, Script, ScriptCall, Scripts};
use norm_lang::list::Listed;
use oa_words::limits::MOST_SLOTS;
use set_source::set_text;
use std::alloc::{AllocError, Global};

/// How many buckets the set has.
pub(crate) const BUCKETS: u32 = 8;

/// How many of its calls each caller of part 1 makes at most. One call in four puts a key in, so eight callers need 4,000
/// slots beside the eight of the buckets: the part has as many as a row may have, so that none is used again.
pub(crate) const FIRST_PART_CALLS: u32 = 2000;

/// The slots of part 2: eight of the buckets, and eight for the two keys that are in the set at most, so that slots must be
/// used again and again.
pub(crate) const SECOND_PART_SLOTS: u64 = 16;

/// A call of an operation with a key.
fn key_call(alloc: Global, name: &[u8], key: u64) -> Result<ScriptCall, AllocError>
    ensures { IfOk result (λ call. call ≡ key_call name.now key) }
{
    Ok(ScriptCall {
        line: 0,
        name: Listed::from_slice(alloc, name)?,
        args: Listed::from_slice(alloc, &[key])?,
    })
}

/// The call at a place of a round, from 0.
fn round_call(alloc: Global, key: u64, before: u64, place: u32) -> Result<ScriptCall, AllocError>
    ensures { IfOk result (λ call. call ≡ round_call key before place) }
{
    if place == 0 {
        key_call(alloc, b"insert", key)
    } else if place == 1 {
        key_call(alloc, b"contains", key)
    } else if place == 2 {
        key_call(alloc, b"remove", before)
    } else {
        key_call(alloc, b"contains", before)
    }
}

/// The first calls of a caller.
fn script_of(alloc: Global, count: u32, caller: u32) -> Result<Script, AllocError>
    requires { caller < MOST_CALLERS }
    ensures { IfOk result (λ script. script ≡ script_of count caller) }
{
    let mut script = Listed::empty(alloc);
    let mut round = first_round(caller);
    for i in 0..count {
        script.push(round_call(alloc, round.key, round.before, i % 4)?)?;
        round = round_after(caller, i, round);
    }
    Ok(script)
}

/// Those of the first callers.
fn scripts_of(alloc: Global, count: u32, callers: u32) -> Result<Scripts, AllocError>
    requires { callers ≤ MOST_CALLERS }
    ensures { IfOk result (λ scripts. scripts ≡ scripts_of count callers) }
{
    let mut scripts = Listed::empty(alloc);
    for caller in 0..callers {
        scripts.push(script_of(alloc, count, caller)?)?;
    }
    Ok(scripts)
}

/// Scripts on the set, over so many slots, with the settings of a document that has none of its own.
fn set_document(alloc: Global, slots: u64, scripts: Scripts) -> Result<Document, AllocError>
    ensures { IfOk result (λ document. document ≡ set_document slots scripts) }
{
    Ok(Document {
        text: set_text(alloc, BUCKETS)?,
        slots: Listed::from_slice(alloc, &[slots])?,
        first: DEFAULT_FIRST,
        last: DEFAULT_LAST,
        fuel: DEFAULT_FUEL,
        scripts,
        schedule: Listed::empty(alloc),
    })
}

/// The document of a part.
fn part_document(alloc: Global, part: u32, count: u32, callers: u32) -> Result<Document, AllocError>
    requires callers { callers ≤ MOST_CALLERS }
    ensures { IfOk result (λ document. document ≡ workload_document part count callers) }
{
    if part == 1 {
        let scripts = scripts_of(alloc, count.min(FIRST_PART_CALLS), callers)?;
        set_document(alloc, MOST_SLOTS, scripts)
    } else {
        let scripts = scripts_of(alloc, count, 1)?;
        set_document(alloc, SECOND_PART_SLOTS, scripts)
    }
}

/// The document of part 1 or 2 of a workload, for 1 to 100,000 calls of each of 1 to 8 callers. Both are calls on a hash set of
/// eight buckets. In part 1 each caller makes at most 2,000 of its calls, over 4,096 slots; in part 2 caller 0 makes all of its
/// calls, over 16 slots, which must be used again and again. The calls stand at no line.
///
/// It can be run: the rules accept its text, and its shape has no fault.
///
/// # Errors
///
/// `AllocError` if memory runs out.
pub fn workload_document(
    alloc: Global,
    part: u32,
    count: u32,
    callers: u32,
) -> Result<Document, AllocError>
    requires part { (1 ≤ part) × (part ≤ 2) }
    requires count { (1 ≤ count) × (count ≤ most_calls) }
    requires callers { (1 ≤ callers) × (callers ≤ MOST_CALLERS) }
    ensures document { IfOk result (λ document. document ≡ workload_document part count callers) }
    ensures within { IfOk result IsWithinDocumentLimits }
    ensures runnable { IfOk result IsRunnable }
{
    // Laws for the clauses `within` and `runnable`.
    parts_are_within_limits();
    parts_can_be_run();
    part_document(alloc, part, count, callers)
}
