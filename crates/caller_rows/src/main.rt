//! Answers rows on the callers' core. A row is a line of standard input; on standard output it stands as it is, and its answers are
//! the lines after it. A line that begins with `#` is a heading and is written as it stands; an empty line is skipped.
//! `lines NAME SPELLING` names lines that the rows below it begin with.
//!
//! - `entry NUMBER ROOM OTHER`: an entry as it is made, and after it got another number.
//! - `announcer NUMBER ROOM OTHER`: the same of an entry under epochs.
//! - `setting CALLERS SLOTS FIELDS ROOTS FIRST LAST NODES`: what a setting tells, or why it is refused.
//! - `words CALLERS SLOTS FIRST LAST, ACCESS, .. < TEXT`: the words at the start, and what accesses to them find one after another:
//!   `load AT`, `store AT WORD`, `exchange AT EXPECTED REPLACEMENT` and `max AT WORD`.
//! - `callers CALLERS SLOTS FIRST LAST ROOM, MOVE, .. < TEXT`: the accesses of callers of the compiled text, and how their entries
//!   stand after each move: `first calls OP ARGUMENT`, `first steps COUNT`, and the same of `second`. At the end come the replies.
//! - `signs CALLERS SLOTS FIRST LAST ROOM, MOVE, .. < TEXT`: the same callers, and of each step in place of its access whether it is a load,
//!   a check or an exchange of the text, or another, and what it tells the source machine.
//! - `announcers CALLERS SLOTS LAST ROOM, MOVE, .. < TEXT`: as `callers`, of callers who run the text as it is under epochs, from phase 1 on.
//!
//! A target owns much, and is dropped by a call of `drop`. That is one call to prove. A drop at the end of a scope would be proved part by
//! part.
#![tactic(auto)]

mod accesses;
mod announcers;
mod announcing;
mod answer;
mod bare;
mod callers;
mod entries;
mod steps;
mod targets;
mod told;

use crate::answer::answer;
use row_spelling::{NamedLines, take_line, write_answer};
use std::alloc::Global;
use std::io::{self, BufRead, BufReader};

/// Takes a line, and answers it if it is a row.
fn answer_line<R: Print>(
    rt: &R,
    alloc: Global,
    named: &mut Vec<NamedLines>,
    line: &str,
) -> io::Result<()> {
    if !take_line(rt, alloc, named, line)? {
        return Ok(());
    }
    let mut out = String::new(alloc);
    let answered = answer(alloc, named, line, &mut out);
    write_answer(rt, answered, &out)
}

fn main(rt: HostRuntime) -> io::Result<()> {
    let alloc = rt.alloc();
    let mut named = Vec::new(alloc);
    for line in BufReader::new(alloc, rt.reader())?.lines(alloc) {
        answer_line(&rt, alloc, &mut named, line?.as_str())?;
    }
    Ok(())
}
