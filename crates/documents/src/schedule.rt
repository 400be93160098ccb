//! The turns of a schedule, each after its first word.

ghost use Rattle.line_words.specs.Answered.{Reads};
ghost use Rattle.documents.specs.TailLines.{step_kind_in, step_kind_at, counts_of, counts_at, upto_line, turn_line};
ghost use Rattle.documents.specs.TailShown.{counts_shown};

use crate::limits::{MOST_CALLER, MOST_COUNT};
use line_words::fault::Fault;
use line_words::words::{Words, up_to, value_of};
use schedule_turns::{StepKind, Turn};

/// The caller of a turn and its count, within the limits.
#[derive(Clone, Copy)]
pub(crate) struct Counts {
    pub(crate) caller: u32,
    pub(crate) count: u32,
}

/// `load`, `check` or `exchange`
fn step_kind_in(word: &[u8]) -> Result<StepKind, Fault>
    ensures { Reads (λ kind. kind) result (step_kind_in word.now) }
{
    if word == b"load".as_slice() {
        Ok(StepKind::Load)
    } else if word == b"check".as_slice() {
        Ok(StepKind::Check)
    } else if word == b"exchange".as_slice() {
        Ok(StepKind::Exchange)
    } else {
        Err(Fault::Form)
    }
}

fn step_kind(words: &mut Words) -> Result<StepKind, Fault>
    ensures { Reads (λ kind. (kind, words.new)) result (step_kind_at words.old) }
{
    step_kind_in(words.word()?)
}

/// A caller up to 2^32 - 1, and a count up to 1,000,000.
fn counts_of(caller: Option<u64>, count: Option<u64>) -> Result<Counts, Fault>
    ensures { Reads counts_shown result (counts_of caller count) }
{
    let caller = value_of(caller)?;
    let count = value_of(count)?;
    let caller = up_to(MOST_CALLER, caller)?;
    let count = up_to(MOST_COUNT, count)?;
    Ok(Counts {
        caller: caller as u32,
        count: count as u32,
    })
}

/// `C N`, where N is at least 1.
fn counts_at(words: &mut Words) -> Result<Counts, Fault>
    ensures { Reads counts_shown result (counts_at words.old) }
{
    let caller = words.number()?;
    let count = words.positive()?;
    words.end()?;
    counts_of(caller, count)
}

/// `upto C load N`, `upto C check N` and `upto C exchange N`, where N is at least 1.
fn upto(words: &mut Words) -> Result<Turn, Fault>
    ensures { Reads (λ turn. turn) result (upto_line words.old) }
{
    let caller = words.number()?;
    let kind = step_kind(words)?;
    let count = words.positive()?;
    words.end()?;
    let Counts { caller, count } = counts_of(caller, count)?;
    Ok(Turn::Upto {
        caller,
        kind,
        count,
    })
}

/// A turn, by the line's first word.
pub(crate) fn turn(word: &[u8], words: &mut Words) -> Result<Turn, Fault>
    ensures { Reads (λ turn. turn) result (turn_line word.now words.old) }
{
    if word == b"step".as_slice() {
        let Counts { caller, count } = counts_at(words)?;
        Ok(Turn::Step { caller, count })
    } else if word == b"op".as_slice() {
        let Counts { caller, count } = counts_at(words)?;
        Ok(Turn::Ops { caller, count })
    } else if word == b"upto".as_slice() {
        upto(words)
    } else {
        Err(Fault::Form)
    }
}
