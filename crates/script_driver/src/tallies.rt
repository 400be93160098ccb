//! The text of a workload.

ghost use Rattle.std.specs.Prelude.{◌≡◌, ◌++◌};
ghost use Rattle.std.specs.List.{count_by};
ghost use Rattle.oa_text.specs.Causes.{HasCause};
ghost use Rattle.oa_text.specs.Written.{Writes};
ghost use Rattle.script_driver.specs.WorkloadTexts.{is_number, is_number_line, tally_of, first_line, second_line, workload_text, is_short};

use crate::workload::WorkloadReport;
use caller_steps::Reply;
use document_runs::{Answer, Report, ReportLine, count_short, is_partial};
use oa_text::{Failed, Piece, Sink, write_pieces};

/// Whether a call replied with this number.
fn is_number(n: u64, answer: Answer) -> bool
    ensures { result ≡ is_number n answer }
{
    match answer {
        Answer::Replied(Reply::Number(m)) => m == n,
        Answer::Replied(Reply::Nothing) => false,
        Answer::Replied(Reply::Full) => false,
        Answer::Replied(Reply::Phases(_)) => false,
        Answer::Spent => false,
        Answer::Unreached => false,
    }
}

fn is_number_line(n: u64, line: &ReportLine) -> bool
    ensures { result ≡ is_number_line n line.now }
{
    is_number(n, line.answer)
}

/// How many calls replied with this number.
fn count_number(n: u64, lines: &[ReportLine]) -> usize
    ensures { result ≡ count_by (is_number_line n) lines.now }
{
    lines.iter().filter(|line| is_number_line(n, line)).count()
}

/// What the answers of a part add up to: how many calls there are, how many replied with 1 and how many with 0, and how many have no
/// answer.
#[derive(Clone, Copy)]
pub(crate) struct Tally {
    calls: u64,
    ones: u64,
    zeros: u64,
    short: u64,
}

fn tally_of(lines: &[ReportLine]) -> Tally
    ensures { result ≡ tally_of lines.now }
{
    Tally {
        calls: lines.len() as u64,
        ones: count_number(1, lines) as u64,
        zeros: count_number(0, lines) as u64,
        short: count_short(lines) as u64,
    }
}

fn report_tally(report: &Report) -> Tally
    ensures { result ≡ tally_of report.now.lines }
{
    tally_of(report.lines.items())
}

/// Writes the line of part 1.
fn write_first<K: Sink>(out: &mut K, callers: u32, tally: Tally) -> Result<(), Failed>
    ensures bytes { Writes (K.written out.old) (K.written out.new) (first_line callers tally) result }
    ensures cause { HasCause (K.faults out.old) (K.faults out.new) result }
{
    write_pieces(
        out,
        &[
            Piece::Bytes(b"part 1 callers "),
            Piece::Number(callers as u64),
            Piece::Bytes(b" operations "),
            Piece::Number(tally.calls),
            Piece::Bytes(b" ones "),
            Piece::Number(tally.ones),
            Piece::Bytes(b" zeros "),
            Piece::Number(tally.zeros),
            Piece::Bytes(b" short "),
            Piece::Number(tally.short),
            Piece::Bytes(b"\n"),
        ],
    )
}

/// Writes the line of part 2.
fn write_second<K: Sink>(out: &mut K, tally: Tally, report: &Report) -> Result<(), Failed>
    ensures bytes { Writes (K.written out.old) (K.written out.new) (second_line tally report.now) result }
    ensures cause { HasCause (K.faults out.old) (K.faults out.new) result }
{
    write_pieces(
        out,
        &[
            Piece::Bytes(b"part 2"),
            Piece::Bytes(b" operations "),
            Piece::Number(tally.calls),
            Piece::Bytes(b" ones "),
            Piece::Number(tally.ones),
            Piece::Bytes(b" zeros "),
            Piece::Number(tally.zeros),
            Piece::Bytes(b" short "),
            Piece::Number(tally.short),
            Piece::Bytes(b" phase "),
            Piece::Number(report.phase),
            Piece::Bytes(b" claims "),
            Piece::Number(report.claims),
            Piece::Bytes(b" restarts "),
            Piece::Number(report.restarts),
            Piece::Bytes(b"\n"),
        ],
    )
}

/// Writes both lines.
fn write_lines<K: Sink>(
    out: &mut K,
    callers: u32,
    first: Tally,
    second: Tally,
    report: &Report,
) -> Result<(), Failed>
    ensures bytes { Writes (K.written out.old) (K.written out.new) (first_line callers first ++ second_line second report.now) result }
    ensures cause { HasCause (K.faults out.old) (K.faults out.new) result }
{
    write_first(out, callers, first)?;
    write_second(out, second, report)
}

/// Writes a line for each part of a workload: how many calls were made, how many replied with 1 and with 0, and how many have no
/// answer; for part 1 the callers, and for part 2 the phase at the end, the claims and the failed checks. No memory is taken.
///
/// # Errors
///
/// `Failed` if a write fails: a prefix of the text was written then.
pub fn show_workload<K: Sink>(report: &WorkloadReport, out: &mut K) -> Result<(), Failed>
    ensures bytes { Writes (K.written out.old) (K.written out.new) (workload_text report.now) result }
    ensures cause { HasCause (K.faults out.old) (K.faults out.new) result }
{
    let first = report_tally(&report.first);
    let second = report_tally(&report.second);
    write_lines(out, report.callers, first, second, &report.second)
}

/// Whether some call of a workload has no answer.
pub fn is_short(report: &WorkloadReport) -> bool
    ensures { result ≡ is_short report.now }
{
    is_partial(&report.first) || is_partial(&report.second)
}
