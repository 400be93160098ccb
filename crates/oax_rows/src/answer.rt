//! What the top call answers to a row.

use crate::world::World;
use oa_text::{MemorySink, MemorySource};
use oax_cli::{Outcome, RememberingSource, ending_number, explain, oax_main};
use row_spelling::{NamedLines, RowError, one_line, spelled};
use std::alloc::{AllocError, Global};

/// The number with which the program ends and what it wrote, and what it said on standard error.
#[derive(Drop)]
pub(crate) struct Answered {
    pub(crate) said: String,
    pub(crate) message: String,
}

/// The words, with a space after each.
fn words_of(alloc: Global, row: &str) -> Result<Vec<String>, AllocError> {
    let mut words = Vec::new(alloc);
    for word in row.split(' ') {
        words.push(String::from_str(alloc, word)?)?;
    }
    // nothing stands after the last space
    words.pop();
    Ok(words)
}

/// The number with which the program ends, and what was written.
fn told(alloc: Global, outcome: &Outcome, sink: &MemorySink) -> Result<String, AllocError> {
    let text = one_line(alloc, sink.bytes())?;
    format!(in alloc; "{}: {text}", ending_number(outcome.ending))
}

/// The message on what became of a row: as much of it as there is memory for.
fn message(
    alloc: Global,
    outcome: &Outcome,
    source: &RememberingSource<MemorySource>,
) -> Result<String, AllocError> {
    let mut errors = MemorySink::new(alloc, 4096, Vec::new(alloc));
    match explain(alloc, &mut errors, source, outcome) {
        Ok(()) => one_line(alloc, errors.bytes()),
        Err(_) => one_line(alloc, errors.bytes()),
    }
}

/// Makes the top call on a source, and tells what became of it.
fn called(
    alloc: Global,
    world: World,
    words: &[String],
    source: MemorySource,
) -> Result<Answered, AllocError> {
    let fails = Vec::from_slice(alloc, &[world.failing_write])?;
    let mut sink = MemorySink::new(alloc, world.most.max(1), fails);
    let mut source = RememberingSource::new(alloc, source);
    let outcome = oax_main(alloc, words, &mut source, &mut sink);
    let said = told(alloc, &outcome, &sink)?;
    let message = message(alloc, &outcome, &source)?;
    Ok(Answered { said, message })
}

/// The source that gives what a row spells.
fn source_of(
    alloc: Global,
    world: World,
    named: &[NamedLines],
    spelling: &str,
) -> Result<MemorySource, RowError> {
    let fails = Vec::from_slice(alloc, &[world.failing_read])?;
    let bytes = spelled(alloc, named, spelling)?;
    Ok(MemorySource::new(bytes, world.most.max(1), fails))
}

/// What became of a row.
pub(crate) fn answer(
    alloc: Global,
    world: World,
    named: &[NamedLines],
    line: &str,
) -> Result<Answered, RowError> {
    let Some((row, spelling)) = line.split_once('<') else {
        return Err(RowError::Wrong);
    };
    let spelling = spelling.strip_prefix(' ').unwrap_or(spelling);
    let source = source_of(alloc, world, named, spelling)?;
    let words = words_of(alloc, row)?;
    Ok(called(alloc, world, &words, source)?)
}
