//! Where bytes come from.

ghost use Rattle.std.specs.Prelude.{◌≡◌, ◌<◌, ◌↔◌, ℕ, List, Option, Some, length, drop, min, IsTrue, IsErr, IfOk, OnErr};
ghost use Rattle.std.specs.Io.{ReadsAtMost};
ghost use Rattle.std.specs.Io.KnownBytes.{ReadConsumes};
ghost use Rattle.oa_text.specs.Causes.{HasCause, one_more, faults_after};
ghost use Rattle.oa_text.specs.Memory.{is_to_fail};

use std::marker::Model;

/// A call of a source or a sink failed.
#[derive(Clone, Copy, Debug, PartialEq, Eq)]
pub struct Failed;

/// A source of bytes.
pub trait Source {
    /// The bytes that are left, if the source tells them.
    ghost left: { Self → Option (List ℕ) };

    /// How many calls have failed.
    ghost faults: { Self → ℕ };

    /// Puts the next bytes at the start of the buffer and answers how many.
    ///
    /// `Ok(n)` gives the next n bytes, at most as many as the buffer has room for, and they are left no more. `Ok(0)`
    /// for a buffer that isn't empty is the end: if the bytes are told, none are left. `Failed` gives nothing, and
    /// what is left stays.
    ///
    /// The count of faults never falls: at `Ok` it is as it was, and at `Failed` it rose by one (or stands at 2^64 - 1,
    /// where it can't rise).
    fn read(&mut self, buffer: &mut [u8]) -> Result<usize, Failed>
        ensures bound { ReadsAtMost result buffer.new }
        ensures bytes { ReadConsumes (left self.old) (left self.new) result buffer.new }
        ensures cause { HasCause (faults self.old) (faults self.new) result };
}

/// A source over bytes in memory, for tests: it gives at most so many bytes a call, and some of its calls fail.
#[derive(Drop)]
pub struct MemorySource {
    bytes: Vec<u8>,
    at: usize,
    most: usize,
    fails: Vec<u64>,
    calls: u64,
    faults: u64,
}

impl Model for MemorySource {
    ghost use Rattle.std.specs.Prelude.{◌≤◌, ◌<◌, length, drop};
    ghost use Rattle.oa_text.specs.Memory.{MemoryInput};

    ghost Value = { MemoryInput };

    ghost view = { λ s. record {
      left = drop s.at s.bytes.items;
      most = s.most;
      fails = s.fails.items;
      calls = s.calls;
      faults = s.faults;
    } };

    ghost invariant = { λ s. (s.at ≤ length s.bytes.items) × (0 < s.most) };
}

impl MemorySource {
    /// A source that has these bytes left. A call gives at most `most` bytes, and the calls whose numbers (from 1) are
    /// in `fails` answer `Failed`.
    pub fn new(bytes: Vec<u8>, most: usize, fails: Vec<u64>) -> MemorySource
        requires { 0 < most }
        ensures { result ≡ record { left = bytes.items; most = most; fails = fails.items; calls = 0; faults = 0 } }
    {
        MemorySource {
            bytes,
            at: 0,
            most,
            fails,
            calls: 0,
            faults: 0,
        }
    }

    /// How many calls were made, up to 2^64 - 1.
    pub fn calls(&self) -> u64
        ensures { result ≡ self.now.calls }
    {
        self.calls
    }

    /// How many calls have failed, up to 2^64 - 1.
    pub fn faults(&self) -> u64
        ensures { result ≡ self.now.faults }
    {
        self.faults
    }
}

impl Source for MemorySource {
    ghost left = { λ s. Some s.left };

    ghost faults = { λ s. s.faults };

    /// Fails exactly if the call's number is in the list. Past the bytes given the buffer stays as it was.
    fn read(&mut self, buffer: &mut [u8]) -> Result<usize, Failed>
        ensures bound { ReadsAtMost result buffer.new }
        ensures bytes { ReadConsumes (Some self.old.left) (Some self.new.left) result buffer.new }
        ensures cause { HasCause self.old.faults self.new.faults result }
        ensures rest { IfOk result (λ n. drop n buffer.new ≡ drop n buffer.old) }
        ensures kept { OnErr result (buffer.new ≡ buffer.old) }
        ensures fails { IsErr result ↔ IsTrue (is_to_fail self.old.fails (one_more self.old.calls)) }
        ensures count { IfOk result (λ n. n ≡ min (min (length buffer.new) self.old.most) (length self.old.left)) }
        ensures after { self.new ≡ record self.old {
          left = self.new.left;
          calls = one_more self.old.calls;
          faults = faults_after result self.old.faults;
        } }
    {
        self.calls = self.calls.saturating_add(1);
        if self.fails.contains(&self.calls) {
            self.faults = self.faults.saturating_add(1);
            return Err(Failed);
        }
        let left = self.bytes.len() - self.at;
        let count = buffer.len().min(self.most).min(left);
        buffer[..count].copy_from_slice(&self.bytes[self.at..self.at + count]);
        self.at += count;
        Ok(count)
    }
}
