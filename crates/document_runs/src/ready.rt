//! Runs that are ready: callers, what they call, and the lines of their report.

ghost use Rattle.std.specs.Prelude.{◌≡◌, ◌<◌, Ok, Err, IfOk, MatchResult};
ghost use Rattle.script_plans.specs.declared.fault.RunFault.TheVariants as faults;
ghost use Rattle.thread_runs.specs.Whole.{IsReadyFor};
ghost use Rattle.document_runs.specs.Reports.{all_lines};
ghost use Rattle.document_runs.specs.Blanks.{no_answer};
ghost use Rattle.document_runs.specs.PlanRuns.{ReportsEnd};

use crate::building::report_at;
use crate::report::{Report, ReportLine};
use documents::Document;
use oa_text::Gate;
use script_plans::{CallLists, RunFault};
use std::thread::Threads;
use thread_runs::ReadyCallers;
use word_runner::NoPlace;

/// A run of a document that is ready: its callers, what they call, and the lines of its report. It holds all the memory that these
/// need.
#[derive(Drop)]
pub(crate) struct ReadyRun {
    pub(crate) callers: ReadyCallers,
    pub(crate) scripts: CallLists,
    pub(crate) fuel: u64,
    pub(crate) lines: Vec<ReportLine>,
}

/// Runs the callers on threads, and tells their end in the lines that were made for it.
///
/// # Errors
/// A caller found no place.
pub(crate) fn run_ready<R: Threads + Sync, G: Gate + Sync>(
    rt: &R,
    document: &Document,
    ready: ReadyRun,
    gate: &G,
) -> Result<Report, NoPlace>
    requires callers { IsReadyFor ready.scripts ready.callers }
    requires fuel { 0 < ready.fuel }
    requires blank { ready.lines.items ≡ all_lines no_answer 0 document.now.scripts }
    ensures { IfOk result (λ report. ReportsEnd document.now ready.callers.fixed ready.scripts ready.fuel report) }
{
    let ReadyRun {
        callers,
        scripts,
        fuel,
        lines,
    } = ready;
    match callers.run(rt, scripts.items(), fuel, gate) {
        Ok(last) => Ok(report_at(document, lines, &last)),
        Err(refused) => Err(refused),
    }
}

/// That a caller found no place is told as that memory ran out.
pub(crate) fn told(ran: Result<Report, NoPlace>) -> Result<Report, RunFault>
    ensures { MatchResult ran (λ report. result ≡ Ok report) (λ _. result ≡ Err faults.Memory) }
{
    match ran {
        Ok(report) => Ok(report),
        Err(refused) => {
            drop(refused);
            Err(RunFault::Memory)
        }
    }
}
