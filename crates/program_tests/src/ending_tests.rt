//! How the program ends over writers that fail.

use oa_cli::{Status, finish, serve};
use oa_text::{MemorySource, OpenGate, Sink, StdSink};
use std::io;
use std::io::{BufWriter, ErrorKind, Write};
use std::test::Fail;

// A writer that takes all, and fails to hand it on.
#[derive(Drop)]
struct Clogged;

impl Write for Clogged {
    fn write(&mut self, buffer: &[u8]) -> io::Result<usize> {
        Ok(buffer.len())
    }

    fn flush(&mut self) -> io::Result<()> {
        Err(ErrorKind::Other.into())
    }
}

// A writer that takes nothing, and has nothing to hand on.
#[derive(Drop)]
struct Closed;

impl Write for Closed {
    fn write(&mut self, _buffer: &[u8]) -> io::Result<usize> {
        Err(ErrorKind::Other.into())
    }

    fn flush(&mut self) -> io::Result<()> {
        Ok(())
    }
}

#[test]
fn flush_that_fails_is_a_write_fault(rt: HostRuntime) {
    let mut sink = StdSink::new(Clogged);
    assert!(rt; sink.write(b"accepted") == Ok(8));
    assert!(rt; finish(&mut sink, Status::Done) == Status::WriteFault);
    assert!(rt; sink.faults() == 1);
    assert!(rt; finish(&mut sink, Status::Partial) == Status::WriteFault);
    assert!(rt; sink.faults() == 2);
}

#[test]
fn flush_that_succeeds_leaves_the_status(rt: HostRuntime) {
    let mut sink = StdSink::new(Closed);
    let shape = Status::BadShape { number: 7, at: 0 };
    for status in [Status::Done, Status::Partial, Status::ReadFault, shape] {
        assert!(rt; finish(&mut sink, status) == status);
    }
    assert!(rt; sink.faults() == 0);
}

#[test]
fn nothing_is_tried_after_a_write_fault(rt: HostRuntime) {
    let mut sink = StdSink::new(Clogged);
    assert!(rt; finish(&mut sink, Status::WriteFault) == Status::WriteFault);
    assert!(rt; sink.faults() == 0);
}

// The line is buffered, and only at the end there is a fault.
#[test]
fn buffered_line_that_is_lost_is_a_write_fault(rt: HostRuntime) -> Result<(), Fail> {
    let alloc = rt.alloc();
    let mut source = MemorySource::new(Vec::new(alloc), 1, Vec::new(alloc));
    let Ok(buffer) = BufWriter::new(alloc, Closed) else {
        panic!(rt; "memory ran out");
    };
    let mut sink = StdSink::new(buffer);
    let status = serve(&rt, alloc, &[], &mut source, &mut sink, &OpenGate);
    assert!(rt; status == Status::WriteFault);
    assert!(rt; sink.faults() == 1);
    assert!(rt; source.calls() == 0);
    Ok(())
}
