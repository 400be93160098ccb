//! What adapters, sources, sinks and writers do at calls that were worked out by hand.

ghost use Rattle.std.specs.Prelude.{◌≡◌, [], ◌∷◌};

use oa_text::{
    Failed, Gate, MemorySink, MemorySource, OpenGate, Part, Piece, Sink, Source, StdSink,
    StdSource, SureSink, SureSource, write_all, write_parts, write_pieces,
};
use std::alloc::{AllocError, Global};
use std::io;
use std::io::{ErrorKind, Read, Write};
use std::process::Abort;
use std::test::Fail;

// A writer that takes nothing.
#[derive(Drop)]
struct Stuck;

impl Write for Stuck {
    fn write(&mut self, _buffer: &[u8]) -> io::Result<usize> {
        Ok(0)
    }

    fn flush(&mut self) -> io::Result<()> {
        Ok(())
    }
}

// A reader that fails.
#[derive(Drop)]
struct Broken;

impl Read for Broken {
    fn read(&mut self, _buffer: &mut [u8]) -> io::Result<usize> {
        Err(ErrorKind::Other.into())
    }
}

#[test]
fn adapters_count_faults(rt: HostRuntime) {
    let mut sink = StdSink::new(Stuck);
    assert!(rt; sink.write(b"x") == Err(Failed));
    assert!(rt; sink.write(b"") == Ok(0));
    assert!(rt; sink.faults() == 1);
    let mut source = StdSource::new(Broken);
    let mut buffer = [0; 4];
    assert!(rt; source.read(&mut buffer) == Err(Failed));
    assert!(rt; source.faults() == 1);
}

/// The third write of a byte fails.
fn expect_two_bytes(rt: &impl Abort, sink: &mut MemorySink) {
    assert!(rt; write_all(sink, b"0 0 add 5: 5\n") == Err(Failed));
    assert!(rt; sink.bytes() == b"0 ".as_slice());
    assert!(rt; sink.faults() == 1);
}

/// The second read fails, and the others give a byte each.
fn expect_second_read_fails(rt: &impl Abort, source: &mut MemorySource) {
    let mut buffer = [0; 4];
    assert!(rt; source.read(&mut buffer) == Ok(1));
    assert!(rt; source.read(&mut buffer) == Err(Failed));
    assert!(rt; buffer[0] == b'a');
    assert!(rt; source.read(&mut buffer) == Ok(1));
    assert!(rt; buffer[0] == b'b');
    assert!(rt; source.read(&mut buffer) == Ok(0));
    assert!(rt; source.faults() == 1);
}

fn failing_source(alloc: Global) -> Result<MemorySource, AllocError> {
    let bytes = b"ab".as_slice().to_vec(alloc)?;
    Ok(MemorySource::new(bytes, 1, [2].as_slice().to_vec(alloc)?))
}

#[test]
fn memory_fails_when_told(rt: HostRuntime) -> Result<(), Fail> {
    let alloc = rt.alloc();
    let mut sink = MemorySink::new(alloc, 1, [3].as_slice().to_vec(alloc)?);
    expect_two_bytes(&rt, &mut sink);
    let mut source = failing_source(alloc)?;
    expect_second_read_fails(&rt, &mut source);
    Ok(())
}

#[test]
fn spells_pieces_and_parts(rt: HostRuntime) -> Result<(), Fail> {
    let alloc = rt.alloc();
    let mut sink = MemorySink::new(alloc, 7, Vec::new(alloc));
    let pieces = [
        Piece::Number(0),
        Piece::Bytes(b" then "),
        Piece::Number(7),
        Piece::Bytes(b"\n"),
        Piece::Number(u64::MAX),
    ];
    assert!(rt; write_pieces(&mut sink, &pieces).is_ok());
    let parts = [
        Part::Arguments(&[10, 0]),
        Part::One(Piece::Bytes(b";")),
        Part::Arguments(&[]),
    ];
    assert!(rt; write_parts(&mut sink, &parts).is_ok());
    assert!(rt; sink.bytes() == b"0 then 7\n18446744073709551615 10 0;".as_slice());
    assert!(rt; sink.faults() == 0);
    OpenGate.pass(0, 1);
    Ok(())
}

// A sure sink that was given two pieces. No test can read them back, but its contract tells them.
fn two_pieces() -> SureSink
    ensures { result ≡ 97 ∷ 98 ∷ 99 ∷ [] }
{
    let mut sink = SureSink::new();
    let _ = write_all(&mut sink, b"ab");
    let _ = write_all(&mut sink, b"c");
    sink
}

#[test]
fn sure_ones_never_fail(rt: HostRuntime) {
    let mut source = SureSource::new(b"abcde");
    let mut buffer = [0; 4];
    assert!(rt; source.read(&mut buffer) == Ok(4));
    assert!(rt; buffer == *b"abcd");
    assert!(rt; source.read(&mut buffer) == Ok(1));
    assert!(rt; buffer[0] == b'e');
    assert!(rt; source.read(&mut buffer) == Ok(0));
    assert!(rt; write_all(&mut two_pieces(), b"d") == Ok(()));
}
