//! Answers rows: each row has the words of a command line and spells an input, and the top call answers it.
//!
//! A row is a line of standard input: the words, with a space after each, then `<` and the spelling of the input. On standard
//! output the row stands as it is, and the line after it has the status's number, its name, and what was written. A line that
//! begins with `#` is a heading and is written as it stands; an empty line is skipped. `lines NAME SPELLING` names lines that
//! the rows below it begin with. `world MOST READ WRITE` says of the rows below it how many bytes the source gives and the
//! sink takes a call, and which read and which write fails, counted from 1; 0 is none. Below a line `world MOST READ WRITE messages`
//! a row's answer is what the program says on standard error.
#![tactic(auto)]

mod answer;
mod world;

use crate::answer::answer;
use crate::world::World;
use row_spelling::{NamedLines, RowError, take_line};
use std::alloc::Global;
use std::io::{self, BufRead, BufReader};
use std::thread::Threads;

/// Writes the answer to a row, or that the row is wrong.
fn take_row<R: Print + Threads + Sync>(
    rt: &R,
    alloc: Global,
    world: World,
    named: &[NamedLines],
    line: &str,
) -> io::Result<()> {
    match answer(rt, alloc, world, named, line) {
        Ok(answer) => rt.println(answer.as_str()),
        Err(RowError::Wrong) => rt.println("wrong row"),
        Err(RowError::Memory(error)) => Err(error.into()),
    }
}

/// Takes a line, and answers it if it is a row, or remembers the world that it tells.
fn answer_line<R: Print + Threads + Sync>(
    rt: &R,
    alloc: Global,
    world: &mut World,
    named: &mut Vec<NamedLines>,
    line: &str,
) -> io::Result<()> {
    if !take_line(rt, alloc, named, line)? {
        return Ok(());
    }
    if let Some(rest) = line.strip_prefix("world ") {
        *world = World::of_line(rest);
        return Ok(());
    }
    take_row(rt, alloc, *world, named, line)
}

fn main(rt: HostRuntime) -> io::Result<()> {
    let alloc = rt.alloc();
    let mut named = Vec::new(alloc);
    let mut world = World::KIND;
    for line in BufReader::new(alloc, rt.reader())?.lines(alloc) {
        answer_line(&rt, alloc, &mut world, &mut named, line?.as_str())?;
    }
    Ok(())
}
