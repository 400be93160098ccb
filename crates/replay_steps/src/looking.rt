//! What is looked up for the caller whose turn it is.

ghost use Rattle.std.specs.Prelude.{◌≡◌, ◌<◌, ◌^◌, map, option_copied, slice_get};
ghost use Rattle.core_runs.specs.Scripts.{script_of};
ghost use Rattle.core_runs.specs.Replays.{calls_ended_of, entry_wants_kind};
ghost use Rattle.replay_steps.specs.Entries.{core_part, AllBelongTo};

use crate::counting::is_of_kind;
use caller_steps::{Call, Setting};
use core_entries::Entry;
use core_ground::Prepared;
use norm_lang::list::Listed;
use schedule_turns::StepKind;

/// The call at a place of a script.
pub fn call_at(script: &[Call], at: usize) -> Option<Call>
    ensures { result ≡ slice_get script.now at }
{
    script.get(at).copied()
}

/// The script of a caller; one that doesn't exist has no call.
pub fn script_at(scripts: &[Listed<Call>], caller: usize) -> &[Call]
    ensures { result.now ≡ script_of scripts.now caller }
{
    match scripts.get(caller) {
        None => &[],
        Some(script) => script.items(),
    }
}

fn entry_at(entries: &[Entry], caller: u32) -> Option<&Entry>
    ensures { option_copied result ≡ slice_get entries.now caller }
{
    entries.get(caller as usize)
}

/// How many of a caller's calls have ended.
pub fn ended_calls(entries: &[Entry], caller: u32) -> u64
    ensures count { result ≡ calls_ended_of (slice_get (map core_part entries.now) caller) }
    ensures few { result < 2 ^ 62 }
{
    match entries.get(caller as usize) {
        None => 0,
        Some(entry) => entry.replies().len() as u64,
    }
}

/// Whether a caller's next access is of this kind.
pub fn wants_kind(
    entries: &[Entry],
    prepared: &Prepared,
    setting: &Setting,
    caller: u32,
    kind: StepKind,
) -> bool
    requires { AllBelongTo prepared.now setting.now entries.now }
    ensures { result ≡ entry_wants_kind prepared.now.target kind (slice_get (map core_part entries.now) caller) }
{
    match entry_at(entries, caller) {
        None => false,
        Some(entry) => is_of_kind(kind, entry.kind_wanted(prepared, setting)),
    }
}
