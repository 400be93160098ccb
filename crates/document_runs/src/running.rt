//! Documents that are run and replayed.

ghost use Rattle.std.specs.Prelude.{◌≡◌, Ok, IfOk};
ghost use Rattle.documents.specs.DocumentLimits.{IsWithinDocumentLimits};
ghost use Rattle.core_runs.specs.Replays.{replayed};
ghost use Rattle.oa_core.specs.Shown.{replay_by, terms_of};
ghost use Rattle.script_plans.specs.Plans.{IsPlanned, IsReady};
ghost use Rattle.document_runs.specs.Runs.{IsRan, IsReplayed};
ghost use Rattle.document_runs.specs.Reports.{all_lines};
ghost use Rattle.document_runs.specs.Blanks.{no_answer};
ghost use Rattle.document_runs.specs.PlanRuns.{fault_of, answer_of, ReportsTurns, IsReadyPlan};

use crate::building::{blank_lines, report_of};
use crate::ready::{ReadyRun, run_ready, told};
use crate::report::{Report, ReportLine};
use core_ground::Prepared;
use documents::Document;
use oa_core::{ReadyReplay, Stop};
use oa_text::Gate;
use script_plans::{Plan, RunFault, plan_of};
use std::alloc::{AllocError, Global};
use std::thread::Threads;
use thread_runs::ReadyCallers;

/// What a replay that stops is told as: the numbers 10 and 11, with the steps made.
fn fault_of(stop: Stop) -> RunFault
    ensures { result ≡ fault_of stop }
{
    match stop {
        Stop::StepOfNobody { steps } => RunFault::Shape {
            number: 10,
            at: steps,
        },
        Stop::LongReplay { steps } => RunFault::Shape {
            number: 11,
            at: steps,
        },
    }
}

/// A replay of a document that is ready to be made, beside the lines of its report. It holds all the memory that both need.
#[derive(Drop)]
struct ReadyReport<'a> {
    replay: ReadyReplay<'a>,
    lines: Vec<ReportLine>,
}

/// Takes the memory for the replay of a plan.
fn ready_plan<'a>(
    alloc: Global,
    plan: &'a Plan,
    prepared: &'a Prepared<'a>,
) -> Result<ReadyReplay<'a>, AllocError>
    requires ready { IsReady plan.now }
    requires prepared { prepared.now ≡ plan.now.barred }
    ensures { IfOk result (λ replay. replay ≡ terms_of plan.now.barred plan.now.setting plan.now.scripts plan.now.fuel) }
{
    ReadyReplay::new(
        alloc,
        prepared,
        &plan.setting,
        plan.scripts.items(),
        plan.fuel,
    )
}

/// Takes the memory for the replay of a document's plan, and for its report.
fn ready_report<'a>(
    alloc: Global,
    document: &Document,
    plan: &'a Plan,
    prepared: &'a Prepared<'a>,
) -> Result<ReadyReport<'a>, AllocError>
    requires within { IsWithinDocumentLimits document.now }
    requires planned { IsPlanned document.now (Ok plan.now) }
    requires ready { IsReady plan.now }
    requires prepared { prepared.now ≡ plan.now.barred }
    ensures replay { IfOk result (λ r. r.replay ≡ terms_of plan.now.barred plan.now.setting plan.now.scripts plan.now.fuel) }
    ensures blank { IfOk result (λ r. r.lines.items ≡ all_lines no_answer 0 document.now.scripts) }
{
    let lines = blank_lines(alloc, document.scripts.items())?;
    let replay = ready_plan(alloc, plan, prepared)?;
    Ok(ReadyReport { replay, lines })
}

/// Makes a replay by the turns of a document's schedule, and tells its end in the lines that were made for it.
fn make_report(document: &Document, ready: ReadyReport) -> Result<Report, Stop>
    requires blank { ready.lines.items ≡ all_lines no_answer 0 document.now.scripts }
    ensures { ReportsTurns document.now result ready.entry.replay.fuel (replayed (replay_by ready.entry.replay) document.now.schedule) }
{
    let ReadyReport { replay, lines } = ready;
    match replay.make(document.schedule.items()) {
        Ok(state) => Ok(report_of(document, lines, &state)),
        Err(stop) => Err(stop),
    }
}

/// What is answered for a replay that was made.
fn answer_of(made: Result<Report, Stop>) -> Result<Report, RunFault>
    ensures { result ≡ answer_of made }
{
    match made {
        Ok(report) => Ok(report),
        Err(stop) => Err(fault_of(stop)),
    }
}

/// Replays a document by its plan.
fn replay_by_plan(alloc: Global, document: &Document, plan: &Plan) -> Result<Report, RunFault>
    requires within { IsWithinDocumentLimits document.now }
    requires planned { IsPlanned document.now (Ok plan.now) }
    requires ready { IsReady plan.now }
    ensures { IsReplayed document.now result }
{
    let prepared = Prepared::new(&plan.barred);
    match ready_report(alloc, document, plan, &prepared) {
        Ok(ready) => answer_of(make_report(document, ready)),
        Err(_) => Err(RunFault::Memory),
    }
}

/// Replays a document by its plan, and gives the plan up.
fn replay_planned(alloc: Global, document: &Document, plan: Plan) -> Result<Report, RunFault>
    requires within { IsWithinDocumentLimits document.now }
    requires planned { IsPlanned document.now (Ok plan) }
    requires ready { IsReady plan }
    ensures { IsReplayed document.now result }
{
    let answered = replay_by_plan(alloc, document, &plan);
    drop(plan);
    answered
}

/// Replays a document: the turns of its schedule in order, and then each caller to its end, in the order of their numbers. The
/// report is a function of the document.
///
/// Its text is within the limits of texts, each of its scripts has at most 100,000 calls, and each turn counts at least 1.
///
/// # Errors
///
/// As `plan_of`. Then `Shape` with the number 10 exactly if a turn needs a step of a caller that has none to take or that
/// doesn't exist, with the steps made before, and 11 exactly if 20,000,000 steps were made and another is wanted, with
/// their count. `Memory` if memory runs out, which is before the first step.
pub fn replay_document(alloc: Global, document: &Document) -> Result<Report, RunFault>
    requires { IsWithinDocumentLimits document.now }
    ensures { IsReplayed document.now result }
{
    match plan_of(alloc, document) {
        Ok(plan) => replay_planned(alloc, document, plan),
        Err(fault) => Err(fault),
    }
}

/// Takes the memory for the callers of a plan, and keeps what they call.
#[tactic(auto, using(crate::proofs::PlanLaws::plan_suits))]
fn ready_plan_run(alloc: Global, plan: Plan, lines: Vec<ReportLine>) -> Result<ReadyRun, AllocError>
    requires ready { IsReady plan }
    ensures { IfOk result (λ r. IsReadyPlan plan r.callers r.scripts r.fuel × (r.lines.items ≡ lines.items)) }
{
    let Plan {
        barred,
        setting,
        scripts,
        fuel,
    } = plan;
    match ReadyCallers::new(alloc, barred, setting, scripts.items()) {
        Ok(callers) => Ok(ReadyRun {
            callers,
            scripts,
            fuel,
            lines,
        }),
        Err(error) => Err(error),
    }
}

/// Takes the memory for the run of a document's plan, and for its report.
fn ready_run(alloc: Global, document: &Document, plan: Plan) -> Result<ReadyRun, AllocError>
    requires within { IsWithinDocumentLimits document.now }
    requires planned { IsPlanned document.now (Ok plan) }
    requires ready { IsReady plan }
    ensures { IfOk result (λ r. IsReadyPlan plan r.callers r.scripts r.fuel × (r.lines.items ≡ all_lines no_answer 0 document.now.scripts)) }
{
    match blank_lines(alloc, document.scripts.items()) {
        Ok(lines) => ready_plan_run(alloc, plan, lines),
        Err(error) => {
            drop(plan);
            Err(error)
        }
    }
}

/// Runs a document by its plan.
fn run_planned<R: Threads + Sync, G: Gate + Sync>(
    rt: &R,
    alloc: Global,
    document: &Document,
    plan: Plan,
    gate: &G,
) -> Result<Report, RunFault>
    requires within { IsWithinDocumentLimits document.now }
    requires planned { IsPlanned document.now (Ok plan) }
    requires ready { IsReady plan }
    ensures { IsRan document.now result }
{
    match ready_run(alloc, document, plan) {
        Ok(ready) => told(run_ready(rt, document, ready, gate)),
        Err(_) => Err(RunFault::Memory),
    }
}

/// Runs a document: its callers run on threads, as far as threads can be made, and each makes the calls of its script one after
/// another, each call with at most as many steps as the document says; after a call that has used them up it makes no further
/// one. Before each call the caller passes the gate with its number and the call's index. The report is that of one state, in
/// which a complete run of the document ends.
///
/// Its text is within the limits of texts, each of its scripts has at most 100,000 calls, and each turn counts at least 1; the
/// turns aren't used.
///
/// # Errors
///
/// As `plan_of`. `Memory` if memory runs out, which is before the first call.
pub fn run_document<R: Threads + Sync, G: Gate + Sync>(
    rt: &R,
    alloc: Global,
    document: &Document,
    gate: &G,
) -> Result<Report, RunFault>
    requires { IsWithinDocumentLimits document.now }
    ensures { IsRan document.now result }
{
    match plan_of(alloc, document) {
        Ok(plan) => run_planned(rt, alloc, document, plan, gate),
        Err(fault) => Err(fault),
    }
}
