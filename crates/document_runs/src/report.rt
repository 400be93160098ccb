//! What a run of a document tells.

use caller_steps::Reply;
use documents::Numbers;
use norm_lang::list::Listed;
use norm_lang::text::Name;

/// What is printed for a call: its reply, `spent` if its steps ran out, and `unreached` after such a call.
#[derive(Clone, Copy)]
pub enum Answer {
    Replied(Reply),
    Spent,
    Unreached,
}

/// A call of a script, by the caller's number and its index among the caller's calls, both from 0 on, with its answer.
#[derive(Drop)]
pub struct ReportLine {
    pub caller: u32,
    pub index: u32,
    pub name: Name,
    pub args: Numbers,
    pub answer: Answer,
}

/// Lines, by caller and then by place in the script.
pub type ReportLines = Listed<ReportLine>;

/// The answers of a document, the phase at the end, and how many slots were claimed and checks failed over all callers; the
/// counts stay at 2^64 - 1.
#[derive(Drop)]
pub struct Report {
    pub lines: ReportLines,
    pub phase: u64,
    pub claims: u64,
    pub restarts: u64,
}
