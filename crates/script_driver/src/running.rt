//! Documents that are run and replayed, with all that their reports tell.

ghost use Rattle.documents.specs.DocumentLimits.{IsWithinDocumentLimits};
ghost use Rattle.script_driver.specs.Answers.{IsRunAnswer, IsReplayAnswer};
ghost use Rattle.script_driver.specs.report_laws.EpochLines.{IsEpochAnswer};

use crate::report_laws::{epoch_reports_are_true, reports_are_true};
use document_runs::Report;
use documents::Document;
use oa_text::Gate;
use script_plans::RunFault;
use std::alloc::Global;
use std::thread::Threads;

/// Replays a document: the turns of its schedule in order, and then each caller to its end, in the order of their numbers. The
/// report is a function of the document.
///
/// Its text is within the limits of texts, each of its scripts has at most 100,000 calls, and each turn counts at least 1.
///
/// The clause says what the report tells of the run that the turns give, as for `run_document`.
///
/// # Errors
///
/// As `plan_of`. Then `Shape` with the number 10 exactly if a turn needs a step of a caller that has none to take or that
/// doesn't exist, with the steps made before, and 11 exactly if 20,000,000 steps were made and another is wanted, with
/// their count. `Memory` if memory runs out, which is before the first step.
pub fn replay_document(alloc: Global, document: &Document) -> Result<Report, RunFault>
    requires { IsWithinDocumentLimits document.now }
    ensures { IsReplayAnswer document.now result }
{
    // A law: what the clause says of a report.
    reports_are_true();
    document_runs::replay_document(alloc, document)
}

/// Runs a document: its callers run on threads, as far as threads can be made, and each makes the calls of its script one after
/// another, each call with at most as many steps as the document says; after a call that has used them up it makes no further
/// one. Before each call the caller passes the gate with its number and the call's index. The report is that of one state, in
/// which a complete run of the document ends.
///
/// Its text is within the limits of texts, each of its scripts has at most 100,000 calls, and each turn counts at least 1; the
/// turns aren't used.
///
/// The clause says what the report tells: a line says `phases`, `full`, `spent` or `unreached` exactly if the steps of the run give
/// cause to; if the document's text is proper, the run is one of the text on memory that is never recycled, and each line says
/// what that one answers; see `TellsOf`.
///
/// # Errors
///
/// As `plan_of`. `Memory` if memory runs out, which is before the first call.
pub fn run_document<R: Threads + Sync, G: Gate + Sync>(
    rt: &R,
    alloc: Global,
    document: &Document,
    gate: &G,
) -> Result<Report, RunFault>
    requires { IsWithinDocumentLimits document.now }
    ensures { IsRunAnswer document.now result }
{
    // A law: what the clause says of a report.
    reports_are_true();
    document_runs::run_document(rt, alloc, document, gate)
}

/// Runs a document as `run_document` does, but under epochs: its callers run the text as it is, without checks and guards, and announce
/// phases, before which sweeps recycle. The report is that of one state, in which a complete run of the document under epochs ends.
///
/// Its text is within the limits of texts, each of its scripts has at most 100,000 calls, and each turn counts at least 1; the
/// turns aren't used.
///
/// The clause says what the report tells: a line says `phases`, `full`, `spent` or `unreached` exactly if the steps of the run give
/// cause to; if the text is proper, the lines are what it answers on memory that is never recycled; see `EpochsTellOf`.
///
/// # Errors
///
/// As those of `run_document`.
pub fn epoch_document<R: Threads + Sync, G: Gate + Sync>(
    rt: &R,
    alloc: Global,
    document: &Document,
    gate: &G,
) -> Result<Report, RunFault>
    requires { IsWithinDocumentLimits document.now }
    ensures { IsEpochAnswer document.now result }
{
    // A law: what the clause says of a report.
    epoch_reports_are_true();
    document_runs::epoch_document(rt, alloc, document, gate)
}
