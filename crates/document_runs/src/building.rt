//! The report of a state. Its lines are made before the run, so that none of its memory is taken after it.

ghost use Rattle.std.specs.Prelude.{◌≡◌, ◌<◌, ◌^◌, ◌++◌, length, map, option_copied, slice_get, IfOk};
ghost use Rattle.std.specs.List.{sum_by};
ghost use Rattle.oa_core.specs.Finals.{core_part, core_of};
ghost use Rattle.documents.specs.DocumentLimits.{AreShort};
ghost use Rattle.document_runs.specs.declared.report.Answer.TheVariants as answers;
ghost use Rattle.document_runs.specs.Reports.{answer_at, answer_among, line_of, lines_from, all_lines, capped, claims_of, restarts_of, report_with, report_of};
ghost use Rattle.document_runs.specs.Blanks.{no_answer, nothing, answered_by};

use crate::report::{Answer, Report, ReportLine, ReportLines};
use caller_steps::Reply;
use documents::{Document, Script, ScriptCall};
use norm_lang::list::Listed;
use oa_core::{CoreState, Entry};
use std::alloc::{AllocError, Global};
use word_runner::Final;

/// A line for a call, before it has an answer.
fn blank_line(
    alloc: Global,
    caller: u32,
    index: u32,
    call: &ScriptCall,
) -> Result<ReportLine, AllocError>
    ensures { IfOk result (λ line. line ≡ line_of caller index call.now answers.Unreached) }
{
    Ok(ReportLine {
        caller,
        index,
        name: Listed::from_slice(alloc, call.name.items())?,
        args: Listed::from_slice(alloc, call.args.items())?,
        answer: Answer::Unreached,
    })
}

/// Adds a line for each call of a caller.
#[tactic(auto, using(crate::proofs::Blanking::lines_more, crate::proofs::Blanking::lines_end))]
fn add_lines(
    lines: &mut Vec<ReportLine>,
    alloc: Global,
    caller: u32,
    script: &[ScriptCall],
) -> Result<(), AllocError>
    requires few { length script.now < 2 ^ 32 }
    ensures { IfOk result (λ _. lines.new.items ≡ lines.old.items ++ lines_from nothing caller 0 script.now) }
{
    for (index, call) in script.iter().enumerate() {
        lines.push(blank_line(alloc, caller, index as u32, call)?)?;
    }
    Ok(())
}

/// A line for each call of the scripts.
#[tactic(auto, using(crate::proofs::Blanking::scripts_more, crate::proofs::Blanking::scripts_end, crate::proofs::Blanking::few_calls))]
pub(crate) fn blank_lines(alloc: Global, scripts: &[Script]) -> Result<Vec<ReportLine>, AllocError>
    requires few { length scripts.now < 2 ^ 32 }
    requires short { AreShort scripts.now }
    ensures { IfOk result (λ lines. lines.items ≡ all_lines no_answer 0 scripts.now) }
{
    let mut lines = Vec::new(alloc);
    for (caller, script) in scripts.iter().enumerate() {
        add_lines(&mut lines, alloc, caller as u32, script.items())?;
    }
    Ok(lines)
}

fn reply_at(replies: &[Reply], index: usize) -> Option<&Reply>
    ensures { option_copied result ≡ slice_get replies.now index }
{
    replies.get(index)
}

/// The answer to the call at an index, by the replies and whether a call runs still.
fn answer_at(replies: &[Reply], running: bool, index: usize) -> Answer
    ensures { result ≡ answer_at replies.now running index }
{
    match reply_at(replies, index) {
        Some(reply) => Answer::Replied(*reply),
        None => {
            if running && index == replies.len() {
                Answer::Spent
            } else {
                Answer::Unreached
            }
        }
    }
}

fn entry_at(entries: &[Entry], caller: usize) -> Option<&Entry>
    ensures { option_copied result ≡ slice_get entries.now caller }
{
    entries.get(caller)
}

/// The answer to a caller's call at an index.
#[tactic(auto, using(crate::proofs::Answering::answer_there, crate::proofs::Answering::answer_nowhere))]
fn answer_among(entries: &[Entry], caller: u32, index: u32) -> Answer
    ensures { result ≡ answer_among (map core_part entries.now) caller index }
{
    match entry_at(entries, caller as usize) {
        Some(entry) => answer_at(entry.replies(), !entry.is_idle(), index as usize),
        None => Answer::Unreached,
    }
}

/// Gives each line its answer.
#[tactic(auto, using(crate::proofs::Answering::line_answered, crate::proofs::Answering::all_answered))]
fn answer_lines(lines: &mut [ReportLine], entries: &[Entry])
    ensures { lines.new ≡ map (answered_by (map core_part entries.now)) lines.old }
{
    for line in lines.iter_mut() {
        line.answer = answer_among(entries, line.caller, line.index);
    }
}

/// What the callers counted.
#[derive(Clone, Copy)]
struct Totals {
    claims: u64,
    restarts: u64,
}

/// The sums over all callers, no more than 2^64 - 1.
#[tactic(auto, using(crate::proofs::Totals::claims_more, crate::proofs::Totals::claims_end, crate::proofs::Totals::restarts_more, crate::proofs::Totals::restarts_end))]
fn sum_up(entries: &[Entry]) -> Totals
    ensures claims { result.claims ≡ capped (sum_by claims_of (map core_part entries.now)) }
    ensures restarts { result.restarts ≡ capped (sum_by restarts_of (map core_part entries.now)) }
{
    let mut claims = 0u64;
    let mut restarts = 0u64;
    for entry in entries {
        claims = claims.saturating_add(entry.claims());
        restarts = restarts.saturating_add(entry.restarts());
    }
    Totals { claims, restarts }
}

/// The lines that were made for the calls of scripts, with their answers.
fn answered(scripts: &[Script], lines: Vec<ReportLine>, entries: &[Entry]) -> ReportLines
    requires blank { lines.items ≡ all_lines no_answer 0 scripts.now }
    ensures { result ≡ all_lines (answer_among (map core_part entries.now)) 0 scripts.now }
{
    let mut lines = lines;
    answer_lines(lines.as_mut_slice(), entries);
    Listed::from_vec(lines)
}

/// The report of a document at a phase with its callers' entries, in the lines that were made for it. Takes no memory.
pub(crate) fn report_with(
    document: &Document,
    lines: Vec<ReportLine>,
    phase: u64,
    entries: &[Entry],
) -> Report
    requires blank { lines.items ≡ all_lines no_answer 0 document.now.scripts }
    ensures { result ≡ report_with document.now phase (map core_part entries.now) }
{
    let totals = sum_up(entries);
    Report {
        lines: answered(document.scripts.items(), lines, entries),
        phase,
        claims: totals.claims,
        restarts: totals.restarts,
    }
}

/// The report of a document in a state of the core.
pub(crate) fn report_of(document: &Document, lines: Vec<ReportLine>, state: &CoreState) -> Report
    requires blank { lines.items ≡ all_lines no_answer 0 document.now.scripts }
    ensures { result ≡ report_of document.now (core_of state.now) }
{
    report_with(document, lines, state.phase(), state.entries())
}

/// The report of a document at the end of a run on threads.
pub(crate) fn report_at(document: &Document, lines: Vec<ReportLine>, last: &Final) -> Report
    requires blank { lines.items ≡ all_lines no_answer 0 document.now.scripts }
    ensures { result ≡ report_with document.now last.now.phase (map core_part last.now.entries) }
{
    report_with(document, lines, last.phase, last.entries.items())
}
