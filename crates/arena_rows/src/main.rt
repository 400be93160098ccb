//! Answers rows on callers of arenas. A row is a line of standard input; on standard output it stands as it is, and its answers are
//! the lines after it. A line that begins with `#` is a heading and is written as it stands; an empty line is skipped.
//! `lines NAME SPELLING` names lines that the rows below it begin with.
//!
//! - `alone ROOM, MOVE, .. < DOCUMENT` and `together ROOM, MOVE, .. < DOCUMENT`: the caller of a document's one script, or those of its
//!   two, on the words of a table: `first operates INDEX BUDGET` with the call at this index of its script, by at most so many
//!   steps, `first resumes BUDGET`, and the same of `second`; how each move ends, and at the end the phase and the entries.
//! - `announced ROOM, MOVE, .. < DOCUMENT`: the same of two callers that run the document's text as it is, on an epoch arena.
//! - `meet ROOM, BUDGET < DOCUMENT`: the callers of a document's two scripts make the first call of each at the same time, each in a thread
//!   of its own, by at most so many steps.
//! - `places ROOM, COUNT < DOCUMENT`: so many blanks enter, and then one more tries it twice.
//! - `spent < DOCUMENT`: the phase at the end of a replay of the document's scripts without turns, whether each caller has a call that was
//!   given its fuel of steps and hasn't ended, and its replies.
//! - `sharing < DOCUMENT`: the document's scripts run on threads, and what their replies add up to.
//!
//! A hall, a document and a plan own much, and are dropped by a call of `drop`. That is one call to prove. A drop at the end of a scope
//! would be proved part by part.
#![tactic(auto)]

mod announced;
mod answer;
mod budgets;
mod hall;
mod meeting;
mod places;
mod plans;
mod sharing;
mod spent;
mod told;
mod words;

use crate::answer::answer;
use row_spelling::{NamedLines, take_line, write_answer};
use std::alloc::Global;
use std::io::{self, BufRead, BufReader};
use std::thread::Threads;

/// Takes a line, and answers it if it is a row.
fn answer_line<R: Print + Threads + Sync>(
    rt: &R,
    alloc: Global,
    named: &mut Vec<NamedLines>,
    line: &str,
) -> io::Result<()> {
    if !take_line(rt, alloc, named, line)? {
        return Ok(());
    }
    let mut out = String::new(alloc);
    let answered = answer(rt, alloc, named, line, &mut out);
    write_answer(rt, answered, &out)
}

fn main(rt: HostRuntime) -> io::Result<()> {
    let alloc = rt.alloc();
    let mut named = Vec::new(alloc);
    for line in BufReader::new(alloc, rt.reader())?.lines(alloc) {
        answer_line(&rt, alloc, &mut named, line?.as_str())?;
    }
    Ok(())
}
