//! What the top call answers to a row.

use crate::world::World;
use oa_cli::{RememberingSource, Status, explain_status, oa_main, status_number};
use oa_text::{MemorySink, MemorySource, OpenGate};
use row_spelling::{NamedLines, RowError, one_line, spelled};
use std::alloc::{AllocError, Global};
use std::thread::Threads;

/// The words, with a space after each.
fn words_of(alloc: Global, row: &str) -> Result<Vec<String>, AllocError> {
    let mut words = Vec::new(alloc);
    for word in row.split(' ') {
        words.push(String::from_str(alloc, word)?)?;
    }
    // nothing stands after the last space
    words.pop();
    Ok(words)
}

/// A status and what was written.
fn told(alloc: Global, status: Status, sink: &MemorySink) -> Result<String, AllocError> {
    let text = one_line(alloc, sink.bytes())?;
    format!(in alloc; "{} {status:?}: {text}", status_number(status))
}

/// The message on a status, with what the source remembers: as much of the message as there is memory for.
fn message(
    alloc: Global,
    status: Status,
    source: &RememberingSource<MemorySource>,
) -> Result<String, AllocError> {
    let mut errors = MemorySink::new(alloc, 4096, Vec::new(alloc));
    match explain_status(alloc, &mut errors, source, status) {
        Ok(()) => one_line(alloc, errors.bytes()),
        Err(_) => one_line(alloc, errors.bytes()),
    }
}

/// Makes the top call on a source, and tells its status and what it writes, or the message.
fn called<R: Threads + Sync>(
    rt: &R,
    alloc: Global,
    world: World,
    words: &[String],
    source: MemorySource,
) -> Result<String, AllocError> {
    let fails = Vec::from_slice(alloc, &[world.failing_write])?;
    let mut sink = MemorySink::new(alloc, world.most.max(1), fails);
    let mut source = RememberingSource::new(alloc, source);
    let status = oa_main(rt, alloc, words, &mut source, &mut sink, &OpenGate);
    if world.messages {
        message(alloc, status, &source)
    } else {
        told(alloc, status, &sink)
    }
}

/// The source that gives what a row spells.
fn source_of(
    alloc: Global,
    world: World,
    named: &[NamedLines],
    spelling: &str,
) -> Result<MemorySource, RowError> {
    let fails = Vec::from_slice(alloc, &[world.failing_read])?;
    let bytes = spelled(alloc, named, spelling)?;
    Ok(MemorySource::new(bytes, world.most.max(1), fails))
}

/// The status of a row and what was written.
pub(crate) fn answer<R: Threads + Sync>(
    rt: &R,
    alloc: Global,
    world: World,
    named: &[NamedLines],
    line: &str,
) -> Result<String, RowError> {
    let Some((row, spelling)) = line.split_once('<') else {
        return Err(RowError::Wrong);
    };
    let spelling = spelling.strip_prefix(' ').unwrap_or(spelling);
    let source = source_of(alloc, world, named, spelling)?;
    let words = words_of(alloc, row)?;
    Ok(called(rt, alloc, world, &words, source)?)
}
