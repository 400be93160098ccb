//! Documents that are run under epochs: their callers run the text as it is.

ghost use Rattle.std.specs.Prelude.{◌≡◌, Ok, IfOk};
ghost use Rattle.documents.specs.DocumentLimits.{IsWithinDocumentLimits};
ghost use Rattle.script_plans.specs.EpochPlans.{IsEpochPlanned, IsEpochReady};
ghost use Rattle.document_runs.specs.Epochs.{IsEpochRan, IsReadyEpochPlan};
ghost use Rattle.document_runs.specs.Reports.{all_lines};
ghost use Rattle.document_runs.specs.Blanks.{no_answer};

use crate::building::blank_lines;
use crate::ready::{ReadyRun, run_ready, told};
use crate::report::{Report, ReportLine};
use documents::Document;
use oa_text::Gate;
use script_plans::{EpochPlan, RunFault, epoch_plan_of};
use std::alloc::{AllocError, Global};
use std::thread::Threads;
use thread_runs::ReadyCallers;

/// Takes the memory for the callers of a plan, and keeps what they call.
#[tactic(auto, using(crate::proofs::EpochLaws::plan_suits))]
fn ready_plan(
    alloc: Global,
    plan: EpochPlan,
    lines: Vec<ReportLine>,
) -> Result<ReadyRun, AllocError>
    requires ready { IsEpochReady plan }
    ensures { IfOk result (λ r. IsReadyEpochPlan plan r.callers r.scripts r.fuel × (r.lines.items ≡ lines.items)) }
{
    let EpochPlan {
        normal,
        setting,
        scripts,
        fuel,
    } = plan;
    match ReadyCallers::bare(alloc, normal, setting, scripts.items()) {
        Ok(callers) => Ok(ReadyRun {
            callers,
            scripts,
            fuel,
            lines,
        }),
        Err(error) => Err(error),
    }
}

/// Takes the memory for the run of a document's plan, and for its report.
fn ready_run(alloc: Global, document: &Document, plan: EpochPlan) -> Result<ReadyRun, AllocError>
    requires within { IsWithinDocumentLimits document.now }
    requires planned { IsEpochPlanned document.now (Ok plan) }
    requires ready { IsEpochReady plan }
    ensures { IfOk result (λ r. IsReadyEpochPlan plan r.callers r.scripts r.fuel × (r.lines.items ≡ all_lines no_answer 0 document.now.scripts)) }
{
    match blank_lines(alloc, document.scripts.items()) {
        Ok(lines) => ready_plan(alloc, plan, lines),
        Err(error) => {
            drop(plan);
            Err(error)
        }
    }
}

/// Runs a document by its plan.
fn run_planned<R: Threads + Sync, G: Gate + Sync>(
    rt: &R,
    alloc: Global,
    document: &Document,
    plan: EpochPlan,
    gate: &G,
) -> Result<Report, RunFault>
    requires within { IsWithinDocumentLimits document.now }
    requires planned { IsEpochPlanned document.now (Ok plan) }
    requires ready { IsEpochReady plan }
    ensures { IsEpochRan document.now result }
{
    match ready_run(alloc, document, plan) {
        Ok(ready) => told(run_ready(rt, document, ready, gate)),
        Err(_) => Err(RunFault::Memory),
    }
}

/// Runs a document as `run_document` does, but under epochs: its callers run the text as it is, without checks and guards. The report is
/// that of one state, in which a complete run of the document under epochs ends.
///
/// Its text is within the limits of texts, each of its scripts has at most 100,000 calls, and each turn counts at least 1; the
/// turns aren't used.
///
/// # Errors
///
/// As `epoch_plan_of`. `Memory` if memory runs out, which is before the first call.
pub fn epoch_document<R: Threads + Sync, G: Gate + Sync>(
    rt: &R,
    alloc: Global,
    document: &Document,
    gate: &G,
) -> Result<Report, RunFault>
    requires { IsWithinDocumentLimits document.now }
    ensures { IsEpochRan document.now result }
{
    match epoch_plan_of(alloc, document) {
        Ok(plan) => run_planned(rt, alloc, document, plan, gate),
        Err(fault) => Err(fault),
    }
}
