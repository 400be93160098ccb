//! Judges histories: each row has the calls of each caller with their answers, and the program looks for an order in which a set or a
//! queue gives them.
//!
//! A row is a line of standard input: `set` or `queue`, and then for each caller `|` and its calls in their order, with commas between
//! them, each as `oa run` prints it: `set | insert 5: 1, remove 5: spent | contains 5: 0`. On standard output the row stands as it
//! is, and the line after it says `legal`, `no legal order`, `too large`, or `wrong row` if it isn't spelled so. A line that begins
//! with `#` is a heading and is written as it stands; an empty line is skipped.
#![tactic(auto)]

mod answer;
mod row;

use crate::answer::answer;
use crate::row::RowError;
use std::alloc::Global;
use std::io::{self, BufRead, BufReader};

/// The line that is written after a row, even if the row can't be judged.
fn written(alloc: Global, line: &str) -> io::Result<&'static str> {
    match answer(alloc, line) {
        Ok(written) => Ok(written),
        Err(RowError::Wrong) => Ok("wrong row"),
        Err(RowError::Memory(error)) => Err(error.into()),
    }
}

fn main(rt: HostRuntime) -> io::Result<()> {
    let alloc = rt.alloc();
    for line in BufReader::new(alloc, rt.reader())?.lines(alloc) {
        let line = line?;
        if line.is_empty() {
            continue;
        }
        println!(rt; "{line}")?;
        if !line.starts_with('#') {
            println!(rt; "{}", written(alloc, line.as_str())?)?;
        }
    }
    Ok(())
}
