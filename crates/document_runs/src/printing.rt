//! The text of a report.

ghost use Rattle.std.specs.Prelude.{◌≡◌, ◌≤◌, ◌++◌, length};
ghost use Rattle.std.specs.List.{count_by, flat_map, list_any};
ghost use Rattle.oa_text.specs.Causes.{HasCause};
ghost use Rattle.oa_text.specs.Written.{Writes};
ghost use Rattle.oa_text.specs.Pieces.{piece_bytes};
ghost use Rattle.document_runs.specs.Texts.{is_answered, is_answered_line, is_short_line, is_partial, answer_word, answer_number, line_text, summary_text, report_text};

use crate::report::{Answer, Report, ReportLine};
use caller_steps::Reply;
use oa_text::{Failed, Part, Piece, Sink, Spelled, write_each, write_parts, write_pieces};

/// Whether a call returned, with a number or without.
fn answered(answer: Answer) -> bool
    ensures { result ≡ is_answered answer }
{
    match answer {
        Answer::Replied(Reply::Number(_)) => true,
        Answer::Replied(Reply::Nothing) => true,
        Answer::Replied(Reply::Full) => false,
        Answer::Replied(Reply::Phases(_)) => false,
        Answer::Spent => false,
        Answer::Unreached => false,
    }
}

/// How many calls returned.
#[tactic(auto, using(crate::proofs::Counting::counts_more, crate::proofs::Counting::counts_same, crate::proofs::Counting::counts_all))]
fn count_answered(lines: &[ReportLine]) -> usize
    ensures count { result ≡ count_by is_answered_line lines.now }
    ensures within { result ≤ length lines.now }
{
    let mut count = 0;
    for line in lines {
        if answered(line.answer) {
            count += 1;
        }
    }
    count
}

fn short(line: &ReportLine) -> bool
    ensures { result ≡ is_short_line line.now }
{
    !answered(line.answer)
}

fn some_short(lines: &[ReportLine]) -> bool
    ensures { result ≡ list_any is_short_line lines.now }
{
    lines.iter().any(|line| short(line))
}

/// Whether some call didn't return: its printed answer says `full`, `phases`, `spent` or `unreached`.
pub fn is_partial(report: &Report) -> bool
    ensures { result ≡ is_partial report.now }
{
    some_short(report.lines.items())
}

/// The word of an answer, if it has one.
fn answer_word(answer: Answer) -> Piece<'static>
    ensures { piece_bytes result ≡ answer_word answer }
{
    match answer {
        Answer::Replied(Reply::Number(_)) => Piece::Bytes(b""),
        Answer::Replied(Reply::Nothing) => Piece::Bytes(b"none"),
        Answer::Replied(Reply::Full) => Piece::Bytes(b"full"),
        Answer::Replied(Reply::Phases(_)) => Piece::Bytes(b"phases "),
        Answer::Spent => Piece::Bytes(b"spent"),
        Answer::Unreached => Piece::Bytes(b"unreached"),
    }
}

/// The number of an answer, if it has one.
fn answer_number(answer: Answer) -> Piece<'static>
    ensures { piece_bytes result ≡ answer_number answer }
{
    match answer {
        Answer::Replied(Reply::Number(n)) => Piece::Number(n),
        Answer::Replied(Reply::Nothing) => Piece::Bytes(b""),
        Answer::Replied(Reply::Full) => Piece::Bytes(b""),
        Answer::Replied(Reply::Phases(p)) => Piece::Number(p),
        Answer::Spent => Piece::Bytes(b""),
        Answer::Unreached => Piece::Bytes(b""),
    }
}

impl Spelled for ReportLine {
    ghost spelling = { line_text };

    fn write_to<K: Sink>(&self, out: &mut K) -> Result<(), Failed> {
        write_parts(
            out,
            &[
                Part::One(Piece::Number(self.caller as u64)),
                Part::One(Piece::Bytes(b" ")),
                Part::One(Piece::Number(self.index as u64)),
                Part::One(Piece::Bytes(b" ")),
                Part::One(Piece::Bytes(self.name.items())),
                Part::Arguments(self.args.items()),
                Part::One(Piece::Bytes(b": ")),
                Part::One(answer_word(self.answer)),
                Part::One(answer_number(self.answer)),
                Part::One(Piece::Bytes(b"\n")),
            ],
        )
    }
}

fn write_summary<K: Sink>(
    out: &mut K,
    answered: usize,
    short: usize,
    report: &Report,
) -> Result<(), Failed>
    ensures bytes { Writes (K.written out.old) (K.written out.new) (summary_text answered short report.now) result }
    ensures cause { HasCause (K.faults out.old) (K.faults out.new) result }
{
    write_pieces(
        out,
        &[
            Piece::Bytes(b"replies "),
            Piece::Number(answered as u64),
            Piece::Bytes(b" short "),
            Piece::Number(short as u64),
            Piece::Bytes(b" phase "),
            Piece::Number(report.phase),
            Piece::Bytes(b" claims "),
            Piece::Number(report.claims),
            Piece::Bytes(b" restarts "),
            Piece::Number(report.restarts),
            Piece::Bytes(b"\n"),
        ],
    )
}

/// How many calls didn't return.
#[tactic(auto, using(crate::proofs::Counting::counts_left))]
pub fn count_short(lines: &[ReportLine]) -> usize
    ensures { result ≡ count_by is_short_line lines.now }
{
    let answered = count_answered(lines);
    lines.len() - answered
}

/// Writes the lines of a report, and the line that sums them up.
fn write_report<K: Sink>(report: &Report, lines: &[ReportLine], out: &mut K) -> Result<(), Failed>
    ensures bytes { Writes (K.written out.old) (K.written out.new) (flat_map line_text lines.now ++ summary_text (count_by is_answered_line lines.now) (count_by is_short_line lines.now) report.now) result }
    ensures cause { HasCause (K.faults out.old) (K.faults out.new) result }
{
    let (answered, short) = (count_answered(lines), count_short(lines));
    write_each(out, lines)?;
    write_summary(out, answered, short, report)
}

/// Writes a line for each call with its answer, and a line that sums up. No memory is taken.
///
/// # Errors
///
/// `Failed` if a write fails: a prefix of the text was written then.
pub fn show_report<K: Sink>(report: &Report, out: &mut K) -> Result<(), Failed>
    ensures bytes { Writes (K.written out.old) (K.written out.new) (report_text report.now) result }
    ensures cause { HasCause (K.faults out.old) (K.faults out.new) result }
{
    write_report(report, report.lines.items(), out)
}
