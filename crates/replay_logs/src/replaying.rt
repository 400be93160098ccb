//! Replay: the run of scripts that the turns of a schedule give, written down.

ghost use Rattle.std.specs.Prelude.{◌≡◌, IfOk, All, length, map, true};
ghost use Rattle.std.specs.List.{list_all};
ghost use Rattle.source_machine.specs.Calls.{IsOfSourceRun};
ghost use Rattle.caller_parts.specs.Calls.{AreCalls};
ghost use Rattle.caller_parts.specs.Settings.{Fits};
ghost use Rattle.core_runs.specs.Replays.{replay_start};
ghost use Rattle.oa_simulation.specs.Shadow.{shadow_start};
ghost use Rattle.run_logs.specs.Logged.{is_sized};
ghost use Rattle.run_logs.specs.LogLaws.{recording};
ghost use Rattle.replay_logs.specs.UnderWay.{entry_replies, replay_by, Suits, Starts, IsUnderWay, Shows, Follows};
ghost use Rattle.replay_steps.specs.Entries.{IsShort};
ghost use Rattle.replay_steps.specs.Turns.{replayed_from};
ghost use Rattle.norm_lang.specs.Limits.{is_reply};
ghost use Rattle.replay_logs.specs.Logged.{replay_for, IsLoggedBy, LogsFrom};

use crate::error::LogError;
use crate::progress::{Progress, Terms};
use crate::replies::all_replies;
use barrier_check::Barred;
use caller_steps::{Call, Setting};
use core_ground::{PlainWords, Prepared};
use norm_check::Normal;
use norm_lang::list::Listed;
use replay_steps::entries::put_entries;
use run_logs::Log;
use schedule_turns::Turn;
use source_machine::{SourceEvent, SourceReply};
use std::alloc::{AllocError, Global};

/// What a run gave to the source machine, in order, and the replies of each caller in which it ended.
#[derive(Drop)]
pub struct LoggedRun {
    pub events: Listed<SourceEvent>,
    pub replies: Listed<Listed<SourceReply>>,
}

/// The log before the first step.
fn new_log(alloc: Global, terms: &Terms) -> Result<Log, AllocError>
    requires suits { Suits terms.now }
    ensures made { IfOk result (λ log. log ≡ recording (shadow_start terms.now.text terms.now.setting)) }
    ensures source { IfOk result (λ log. IsOfSourceRun terms.now.text log.machine) }
{
    let callers = terms.setting.shape().callers();
    let nodes = terms.prepared.barred().target().nodes.items().len() as u32;
    Log::new(alloc, terms.normal, callers, nodes)
}

/// The start of a replay.
fn start(alloc: Global, terms: &Terms) -> Result<Progress, AllocError>
    requires suits { Suits terms.now }
    requires starts { Starts terms.now }
    ensures { IfOk result (λ now. Shows terms.now now (replay_start (replay_by terms.now))) }
{
    terms.setting.shape().kept();
    let words = PlainWords::new(alloc, terms.prepared.barred(), terms.setting)?;
    let entries = put_entries(alloc, terms.scripts)?;
    let log = new_log(alloc, terms)?;
    Ok(Progress {
        words,
        entries,
        log,
        steps: 0,
    })
}

/// The turns, and then each caller to its end.
fn run(alloc: Global, terms: &Terms, now: &mut Progress, schedule: &[Turn]) -> Result<(), LogError>
    requires under_way { IsUnderWay terms.now now.old }
    ensures { Follows terms.now now.old result now.new (replayed_from (replay_by terms.now) schedule.now) }
{
    terms.make_turns(alloc, now, schedule)?;
    terms.end_callers(alloc, now)
}

/// What was written down, and the replies.
fn logged(alloc: Global, now: Progress) -> Result<LoggedRun, AllocError>
    ensures same { IfOk result (λ run. run ≡ record { events = now.log.events; replies = map entry_replies now.entries }) }
    ensures sized { IfOk result (λ run. list_all is_sized run.events ≡ true) }
    ensures numbers { IfOk result (λ run. list_all (list_all is_reply) run.replies ≡ true) }
{
    let replies = all_replies(alloc, &now.entries)?;
    Ok(LoggedRun {
        events: now.log.into_events(),
        replies,
    })
}

/// From a state on.
fn log_from(
    alloc: Global,
    terms: &Terms,
    now: Progress,
    schedule: &[Turn],
) -> Result<LoggedRun, LogError>
    requires under_way { IsUnderWay terms.now now }
    ensures { LogsFrom terms.now now (replayed_from (replay_by terms.now) schedule.now) result }
{
    let mut later = now;
    run(alloc, terms, &mut later, schedule)?;
    Ok(logged(alloc, later)?)
}

/// Replays scripts on a prepared target, whose program is made here once for all steps.
fn log_prepared<'a>(
    alloc: Global,
    prepared: &'a Prepared<'a>,
    normal: &'a Normal,
    setting: &'a Setting,
    scripts: &'a [Listed<Call>],
    fuel: u64,
    limit: u64,
    schedule: &[Turn],
) -> Result<LoggedRun, LogError>
    requires fits { Fits prepared.now.target setting.now }
    requires count { length scripts.now ≡ setting.now.sizes.callers }
    requires calls { All (AreCalls prepared.now.target) scripts.now }
    requires few { All IsShort scripts.now }
    ensures { IsLoggedBy (replay_for prepared.now.target setting.now scripts.now fuel limit) normal.now schedule.now result }
{
    setting.kept();
    let terms = Terms {
        prepared,
        program: prepared.program(),
        normal,
        setting,
        scripts,
        fuel,
        limit,
    };
    let now = start(alloc, &terms)?;
    log_from(alloc, &terms, now, schedule)
}

/// Replays scripts, one for each caller, and writes down what the run tells the source machine: the turns of a schedule in order, and
/// then each caller to its end, in the order of their numbers. A caller has a step to take if its operation runs or its script has a
/// further call, and no operation of it was spent. An operation is spent if `fuel` steps were made for it and it hasn't ended. At most
/// `limit` steps are made.
///
/// # Errors
/// A turn needs a step of a caller that has none to take or that doesn't exist, `limit` steps were made and another is
/// wanted, or memory ran out.
pub fn log_replay(
    alloc: Global,
    barred: &Barred,
    normal: &Normal,
    setting: &Setting,
    scripts: &[Listed<Call>],
    fuel: u64,
    limit: u64,
    schedule: &[Turn],
) -> Result<LoggedRun, LogError>
    requires fits { Fits barred.now.target setting.now }
    requires count { length scripts.now ≡ setting.now.sizes.callers }
    requires calls { All (AreCalls barred.now.target) scripts.now }
    requires few { All IsShort scripts.now }
    ensures { IsLoggedBy (replay_for barred.now.target setting.now scripts.now fuel limit) normal.now schedule.now result }
{
    let prepared = Prepared::new(barred);
    log_prepared(
        alloc, &prepared, normal, setting, scripts, fuel, limit, schedule,
    )
}
