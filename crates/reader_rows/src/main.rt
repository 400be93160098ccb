//! Answers rows: each row names a reader of the language, a rule, or the verifier, and spells the lines that are read.
//!
//! A row is a line of standard input, and its answer, the row after it, is a line of standard output. A line that begins
//! with `#` is a heading and is written as it stands; an empty line is skipped. `lines NAME SPELLING` names lines that the
//! rows below it begin with.
#![tactic(auto)]

mod answer;
mod contents;
mod flaws;
mod instruction;
mod row;
mod rules;
mod verified;

use crate::row::Row;
use row_spelling::{NamedLines, RowError, spelled, take_lines};
use std::alloc::Global;
use std::io::{self, BufRead, BufReader};

/// What the row's reader answers.
fn answered(alloc: Global, named: &[NamedLines], line: &str) -> Result<String, RowError> {
    let Some(row) = Row::of_line(line) else {
        return Err(RowError::Wrong);
    };
    let bytes = spelled(alloc, named, row.spelling)?;
    answer::answer(alloc, &row, &bytes)
}

/// Writes a row after its answer, or after `wrong row`.
fn take_row<R: Print>(rt: &R, alloc: Global, named: &[NamedLines], line: &str) -> io::Result<()> {
    match answered(alloc, named, line) {
        Ok(answer) => println!(rt; "{answer}: {line}"),
        Err(RowError::Wrong) => println!(rt; "wrong row: {line}"),
        Err(RowError::Memory(error)) => Err(error.into()),
    }
}

/// Takes a line: a row, lines with a name, or a heading.
fn take_line<R: Print>(
    rt: &R,
    alloc: Global,
    named: &mut Vec<NamedLines>,
    line: &str,
) -> io::Result<()> {
    if line.is_empty() {
        return Ok(());
    }
    if line.starts_with('#') {
        return rt.println(line);
    }
    match line.strip_prefix("lines ") {
        Some(rest) => take_lines(rt, alloc, named, line, rest),
        None => take_row(rt, alloc, named, line),
    }
}

fn main(rt: HostRuntime) -> io::Result<()> {
    let alloc = rt.alloc();
    let mut named = Vec::new(alloc);
    for line in BufReader::new(alloc, rt.reader())?.lines(alloc) {
        take_line(&rt, alloc, &mut named, line?.as_str())?;
    }
    Ok(())
}
