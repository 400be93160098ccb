//! Where bytes go.

ghost use Rattle.std.specs.Prelude.{◌≡◌, ◌<◌, [], ℕ, List, Option, Some, length, min, Ok, IsTrue, IsErr, IfOk};
ghost use Rattle.std.specs.Io.{WritesAtMost};
ghost use Rattle.std.specs.Io.KnownBytes.{WriteAppends};
ghost use Rattle.oa_text.specs.Causes.{HasCause, one_more, faults_after};
ghost use Rattle.oa_text.specs.Memory.{is_to_fail};
ghost use Rattle.oa_text.specs.Written.{Writes};

use crate::source::Failed;
use std::alloc::Global;
use std::marker::Model;

/// A sink of bytes.
pub trait Sink {
    /// The bytes written, if the sink tells them.
    ghost written: { Self → Option (List ℕ) };

    /// How many calls have failed.
    ghost faults: { Self → ℕ };

    /// Takes a prefix of the piece and answers how many bytes it has.
    ///
    /// `Ok(n)` means that the first n bytes of the piece were added to what was written; for a piece that isn't empty
    /// n is at least 1. `Failed` adds nothing.
    ///
    /// The count of faults never falls: at `Ok` it is as it was, and at `Failed` it rose by one (or stands at 2^64 - 1,
    /// where it can't rise).
    fn write(&mut self, piece: &[u8]) -> Result<usize, Failed>
        ensures bound { WritesAtMost result piece.now }
        ensures some { 0 < length piece.now → IfOk result (λ n. 0 < n) }
        ensures bytes { WriteAppends (written self.old) (written self.new) result piece.now }
        ensures cause { HasCause (faults self.old) (faults self.new) result };
}

/// A sink into memory, for tests: it takes at most so many bytes a call, and some of its calls fail.
#[derive(Drop)]
pub struct MemorySink {
    bytes: Vec<u8>,
    most: usize,
    fails: Vec<u64>,
    calls: u64,
    faults: u64,
}

impl Model for MemorySink {
    ghost use Rattle.std.specs.Prelude.{◌<◌};
    ghost use Rattle.oa_text.specs.Memory.{MemoryOutput};

    ghost Value = { MemoryOutput };

    ghost view = { λ s. record {
      written = s.bytes.items;
      most = s.most;
      fails = s.fails.items;
      calls = s.calls;
      faults = s.faults;
    } };

    ghost invariant = { λ s. 0 < s.most };
}

impl MemorySink {
    /// A sink with nothing written. A call takes at most `most` bytes, and the calls whose numbers (from 1) are in
    /// `fails` answer `Failed`.
    pub fn new(alloc: Global, most: usize, fails: Vec<u64>) -> MemorySink
        requires { 0 < most }
        ensures { result ≡ record { written = []; most = most; fails = fails.items; calls = 0; faults = 0 } }
    {
        MemorySink {
            bytes: Vec::new(alloc),
            most,
            fails,
            calls: 0,
            faults: 0,
        }
    }

    /// The bytes written.
    pub fn bytes(&self) -> &[u8]
        ensures { result.now ≡ self.now.written }
    {
        &self.bytes
    }

    /// How many calls have failed, up to 2^64 - 1.
    pub fn faults(&self) -> u64
        ensures { result ≡ self.now.faults }
    {
        self.faults
    }
}

impl Sink for MemorySink {
    ghost written = { λ s. Some s.written };

    ghost faults = { λ s. s.faults };

    /// Fails if the call's number is in the list, or if memory runs out.
    fn write(&mut self, piece: &[u8]) -> Result<usize, Failed>
        ensures bound { WritesAtMost result piece.now }
        ensures some { 0 < length piece.now → IfOk result (λ n. 0 < n) }
        ensures bytes { WriteAppends (Some self.old.written) (Some self.new.written) result piece.now }
        ensures cause { HasCause self.old.faults self.new.faults result }
        ensures fails { IsTrue (is_to_fail self.old.fails (one_more self.old.calls)) → IsErr result }
        ensures count { IfOk result (λ n. n ≡ min (length piece.now) self.old.most) }
        ensures after { self.new ≡ record self.old {
          written = self.new.written;
          calls = one_more self.old.calls;
          faults = faults_after result self.old.faults;
        } }
    {
        self.calls = self.calls.saturating_add(1);
        let count = piece.len().min(self.most);
        if self.fails.contains(&self.calls)
            || self.bytes.extend_from_slice(&piece[..count]).is_err()
        {
            self.faults = self.faults.saturating_add(1);
            return Err(Failed);
        }
        Ok(count)
    }
}

/// Writes all of the bytes, in as many calls as the sink wants. Of no bytes it makes no call.
///
/// # Errors
/// `Failed` at the first write that the sink fails. A prefix of the bytes was written then.
#[tactic(auto, using(crate::proofs::Writing::writes_rest))]
pub fn write_all<K: Sink>(out: &mut K, bytes: &[u8]) -> Result<(), Failed>
    ensures bytes { Writes (K.written out.old) (K.written out.new) bytes.now result }
    ensures cause { HasCause (K.faults out.old) (K.faults out.new) result }
    ensures none { bytes.now ≡ [] → (result ≡ Ok tt) × (out.new ≡ out.old) }
{
    let mut rest = bytes;
    while !rest.is_empty() {
        let count = out.write(rest)?;
        let (_, after) = rest.split_at(count);
        rest = after;
    }
    Ok(())
}
