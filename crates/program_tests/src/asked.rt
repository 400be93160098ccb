//! What the program says, with ample memory.

use oa_cli::{Status, oa_main};
use oa_text::{Gate, MemorySink, MemorySource};
use std::alloc::{AllocError, Global};
use std::process::Abort;
use std::test::Fail;
use std::thread::Threads;

fn words_of(alloc: Global, words: &[&str]) -> Result<Vec<String>, AllocError> {
    let mut list = Vec::new(alloc);
    for word in words {
        let word = word.to_string(alloc)?;
        list.push(word)?;
    }
    Ok(list)
}

/// The status with which the words end, which are answered into a sink.
fn answered<R: Threads + Sync, G: Gate + Sync>(
    rt: &R,
    alloc: Global,
    words: &[String],
    input: &[u8],
    gate: &G,
    sink: &mut MemorySink,
) -> Result<Status, AllocError> {
    let mut source = MemorySource::new(Vec::from_slice(alloc, input)?, 4096, Vec::new(alloc));
    Ok(oa_main(rt, alloc, words, &mut source, sink, gate))
}

/// The words are answered so, with this status.
pub(crate) fn says<R: Abort + Threads + Sync, G: Gate + Sync>(
    rt: &R,
    alloc: Global,
    words: &[&str],
    input: &[u8],
    gate: &G,
    status: Status,
    wanted: &[u8],
) -> Result<(), Fail> {
    let words = words_of(alloc, words)?;
    let mut sink = MemorySink::new(alloc, 4096, Vec::new(alloc));
    let found = answered(rt, alloc, &words, input, gate, &mut sink)?;
    assert!(rt; found == status);
    assert!(rt; sink.bytes() == wanted);
    Ok(())
}
