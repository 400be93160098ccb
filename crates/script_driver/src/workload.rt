//! Both documents of a workload are run.

ghost use Rattle.std.specs.Prelude.{◌≤◌, IfOk};
ghost use Rattle.documents.specs.DocumentLimits.{most_calls, IsWithinDocumentLimits};
ghost use Rattle.oa_words.specs.declared.limits.TheConstants.{MOST_CALLERS};
ghost use Rattle.script_plans.specs.Plans.{IsRunnable};
ghost use Rattle.script_driver.specs.report_laws.Runs.{IsRunReport};
ghost use Rattle.script_driver.specs.Workload.{workload_document};
ghost use Rattle.script_driver.specs.WorkloadRuns.{IsWorkloadReport};

use crate::parts::workload_document;
use crate::running::run_document;
use document_runs::Report;
use documents::Document;
use oa_text::Gate;
use script_plans::RunFault;
use std::alloc::{AllocError, Global};
use std::thread::Threads;

/// The reports of both parts, and how many callers the first one has.
#[derive(Drop)]
pub struct WorkloadReport {
    pub callers: u32,
    pub first: Report,
    pub second: Report,
}

/// Runs a document that can be run: it fails only if memory runs out.
fn run_accepted<R: Threads + Sync, G: Gate + Sync>(
    rt: &R,
    alloc: Global,
    document: &Document,
    gate: &G,
) -> Result<Report, AllocError>
    requires within { IsWithinDocumentLimits document.now }
    requires runnable { IsRunnable document.now }
    ensures { IfOk result (λ report. IsRunReport document.now report) }
{
    match run_document(rt, alloc, document, gate) {
        Ok(report) => Ok(report),
        Err(RunFault::Memory) => Err(AllocError),
        Err(RunFault::Refused(_)) => unreachable!(),
        Err(RunFault::Shape { .. }) => unreachable!(),
    }
}

/// Runs the document of a part.
fn run_part<R: Threads + Sync, G: Gate + Sync>(
    rt: &R,
    alloc: Global,
    part: u32,
    count: u32,
    callers: u32,
    gate: &G,
) -> Result<Report, AllocError>
    requires part { (1 ≤ part) × (part ≤ 2) }
    requires count { (1 ≤ count) × (count ≤ most_calls) }
    requires callers { (1 ≤ callers) × (callers ≤ MOST_CALLERS) }
    ensures { IfOk result (λ report. IsRunReport (workload_document part count callers) report) }
{
    let document = workload_document(alloc, part, count, callers)?;
    run_accepted(rt, alloc, &document, gate)
}

/// Runs both documents of a workload, for 1 to 100,000 calls of each of 1 to 8 callers: the first by all callers on threads, as far
/// as threads can be made, and then the second by one. The callers of both pass the gate before each call.
///
/// # Errors
/// Memory ran out.
pub fn run_workload<R: Threads + Sync, G: Gate + Sync>(
    rt: &R,
    alloc: Global,
    count: u32,
    callers: u32,
    gate: &G,
) -> Result<WorkloadReport, AllocError>
    requires count { (1 ≤ count) × (count ≤ most_calls) }
    requires callers { (1 ≤ callers) × (callers ≤ MOST_CALLERS) }
    ensures { IfOk result (IsWorkloadReport count callers) }
{
    let first = run_part(rt, alloc, 1, count, callers, gate)?;
    let second = run_part(rt, alloc, 2, count, callers, gate)?;
    Ok(WorkloadReport {
        callers,
        first,
        second,
    })
}
