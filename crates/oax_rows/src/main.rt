//! Answers rows: each row has the words of a command line and spells an input, and the top call of `oax` answers it.
//!
//! A row is a line of standard input: the words, with a space after each, then `<` and the spelling of the input. On standard output the row
//! stands as it is, the line after it has the number with which the program ends and what was written, and the next what standard error says,
//! unless that is nothing. A line that begins with `#` is a heading and is written as it stands; an empty line is skipped. `lines NAME SPELLING`
//! names lines that the rows below it begin with. `world MOST READ WRITE` says of the rows below it how many bytes the source gives and the sink
//! takes a call, and which read and which write fails, counted from 1; 0 is none.
#![tactic(auto)]

mod answer;
mod world;

use crate::answer::{Answered, answer};
use crate::world::World;
use row_spelling::{NamedLines, RowError, take_line};
use std::alloc::Global;
use std::io::{self, BufRead, BufReader};

/// Writes an answer, and the message below it, if there is one.
fn write_answer<R: Print>(rt: &R, answered: &Answered) -> io::Result<()> {
    rt.println(answered.said.as_str())?;
    if answered.message.is_empty() {
        return Ok(());
    }
    rt.println(answered.message.as_str())
}

/// Writes the answer to a row, or that the row is wrong.
fn take_row<R: Print>(
    rt: &R,
    alloc: Global,
    world: World,
    named: &[NamedLines],
    line: &str,
) -> io::Result<()> {
    match answer(alloc, world, named, line) {
        Ok(answer) => write_answer(rt, &answer),
        Err(RowError::Wrong) => rt.println("wrong row"),
        Err(RowError::Memory(error)) => Err(error.into()),
    }
}

/// Takes a line, and answers it if it is a row, or remembers the world that it tells.
fn answer_line<R: Print>(
    rt: &R,
    alloc: Global,
    world: &mut World,
    named: &mut Vec<NamedLines>,
    line: &str,
) -> io::Result<()> {
    if !take_line(rt, alloc, named, line)? {
        return Ok(());
    }
    if let Some(rest) = line.strip_prefix("world ") {
        *world = World::of_line(rest);
        return Ok(());
    }
    take_row(rt, alloc, *world, named, line)
}

fn main(rt: HostRuntime) -> io::Result<()> {
    let alloc = rt.alloc();
    let mut named = Vec::new(alloc);
    let mut world = World::KIND;
    for line in BufReader::new(alloc, rt.reader())?.lines(alloc) {
        answer_line(&rt, alloc, &mut world, &mut named, line?.as_str())?;
    }
    Ok(())
}
