//! A source and a sink that never fail.

ghost use Rattle.std.specs.Prelude.{◌≡◌, ◌<◌, ℕ, List, [], ◌++◌, Some, length, drop, min, IsOk, IfOk};
ghost use Rattle.std.specs.Io.{ReadsAtMost, WritesAtMost};
ghost use Rattle.std.specs.Io.KnownBytes.{ReadConsumes, WriteAppends};
ghost use Rattle.oa_text.specs.Causes.{HasCause};

use crate::sink::Sink;
use crate::source::{Failed, Source};
use std::marker::Model;

/// A source over bytes in memory. It tells what it has left, and no call of it fails.
#[derive(Drop)]
pub struct SureSource<'a> {
    rest: &'a [u8],
}

impl<'a> Model for SureSource<'a> {
    ghost use Rattle.std.specs.Prelude.{ℕ, List};

    ghost Value = { List ℕ };

    ghost view = { λ s. s.rest.now };
}

impl<'a> SureSource<'a> {
    /// A source that has these bytes left.
    pub fn new(bytes: &'a [u8]) -> SureSource<'a>
        ensures { result ≡ bytes.now }
    {
        SureSource { rest: bytes }
    }
}

impl<'a> Source for SureSource<'a> {
    ghost left = { λ s. Some s };

    ghost faults = { λ _. 0 };

    /// Fills the buffer as far as there are bytes. The rest of it stays as it was.
    fn read(&mut self, buffer: &mut [u8]) -> Result<usize, Failed>
        ensures bound { ReadsAtMost result buffer.new }
        ensures bytes { ReadConsumes (Some self.old) (Some self.new) result buffer.new }
        ensures cause { HasCause 0 0 result }
        ensures never { IsOk result }
        ensures rest { IfOk result (λ n. drop n buffer.new ≡ drop n buffer.old) }
        ensures count { IfOk result (λ n. n ≡ min (length buffer.new) (length self.old)) }
    {
        let count = buffer.len().min(self.rest.len());
        let (front, rest) = self.rest.split_at(count);
        buffer[..count].copy_from_slice(front);
        self.rest = rest;
        Ok(count)
    }
}

/// A sink that takes every piece whole and tells the bytes written, and no call of which fails.
///
/// It takes no memory: the bytes are known to proofs alone, and no program can read them back. A clause about them says
/// what code that is generic over `Sink` gave to `write`, piece after piece, and not that they are kept anywhere.
/// `MemorySink` keeps its bytes.
#[derive(Drop)]
pub struct SureSink {
    ghost bytes: { List ℕ },
}

impl Model for SureSink {
    ghost use Rattle.std.specs.Prelude.{ℕ, List};
    ghost use Rattle.std.specs.Borrow.{ftrue};

    ghost Value = { List ℕ };

    ghost view = { λ s. s.bytes };

    // Nothing in memory stands for the bytes.
    ghost also_owns = { λ _. ftrue };
}

impl SureSink {
    /// A sink with nothing written.
    pub fn new() -> SureSink
        ensures { result ≡ [] }
    {
        SureSink {}
    }

    // Adds the piece to what is told. There is nothing to do at run time.
    fn tell(&mut self, _piece: &[u8])
        ensures { self.new ≡ self.old ++ _piece.now }
    {}
}

impl Sink for SureSink {
    ghost written = { λ s. Some s };

    ghost faults = { λ _. 0 };

    /// Takes the whole piece.
    fn write(&mut self, piece: &[u8]) -> Result<usize, Failed>
        ensures bound { WritesAtMost result piece.now }
        ensures some { 0 < length piece.now → IfOk result (λ n. 0 < n) }
        ensures bytes { WriteAppends (Some self.old) (Some self.new) result piece.now }
        ensures cause { HasCause 0 0 result }
        ensures never { IsOk result }
        ensures count { IfOk result (λ n. n ≡ length piece.now) }
    {
        self.tell(piece);
        Ok(piece.len())
    }
}
