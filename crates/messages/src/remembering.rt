//! A source that remembers what was read of it.

ghost use Rattle.std.specs.Prelude.{◌≡◌, ◌≤◌, [], true, length, take, None, Some, MatchOption, IfSome, IfOk, OnErr};
ghost use Rattle.std.specs.Io.{ReadsAtMost};
ghost use Rattle.std.specs.Io.KnownBytes.{ReadConsumes};
ghost use Rattle.oa_text.specs.Causes.{HasCause};
ghost use Rattle.messages.specs.Remembered.{IsRemembered, most_remembered, remembered};

use oa_text::{Failed, Source};
use statuses::limits::DOCUMENT_LIMIT;
use std::alloc::Global;
use std::marker::Model;

/// A source that remembers all bytes that were read of it, if they are at most one more than a document may have and there is memory for
/// them. Else it forgets them all.
#[derive(Drop)]
pub struct RememberingSource<S: Source> {
    inner: S,
    bytes: Vec<u8>,
    whole: bool,
}

impl<S: Source> Model for RememberingSource<S> {
    ghost use Rattle.std.specs.Prelude.{◌≤◌, length, vec_capacity};
    ghost use Rattle.messages.specs.Remembered.{RememberingInput, most_remembered};

    ghost Value = { RememberingInput };

    ghost view = { λ s. record {
      left = S.left s.inner;
      faults = S.faults s.inner;
      bytes = s.bytes.items;
      room = vec_capacity s.bytes;
      whole = s.whole;
    } };

    ghost invariant = { λ s. length s.bytes.items ≤ most_remembered };
}

impl<S: Source> RememberingSource<S> {
    /// A source of what another has left, of which nothing was read.
    pub fn new(alloc: Global, inner: S) -> RememberingSource<S>
        ensures { result ≡ record { left = S.left inner; faults = S.faults inner; bytes = []; room = 0; whole = true } }
    {
        RememberingSource {
            inner,
            bytes: Vec::new(alloc),
            whole: true,
        }
    }

    /// All bytes that were read, unless they are forgotten.
    pub fn bytes(&self) -> Option<&[u8]>
        ensures bytes { MatchOption result (remembered self.now ≡ None) (λ bytes. remembered self.now ≡ Some bytes.now) }
        ensures most { IfSome result (λ bytes. length bytes.now ≤ most_remembered) }
    {
        if self.whole {
            Some(self.bytes.as_slice())
        } else {
            None
        }
    }

    /// Remembers a piece, or forgets all.
    fn remember(&mut self, piece: &[u8])
        ensures left { self.new.left ≡ self.old.left }
        ensures faults { self.new.faults ≡ self.old.faults }
        ensures bytes { IsRemembered self.old self.new piece.now }
    {
        self.whole = self.whole
            && piece.len() <= DOCUMENT_LIMIT - self.bytes.len()
            && self.bytes.extend_from_slice(piece).is_ok();
    }
}

impl<S: Source> Source for RememberingSource<S> {
    ghost left = { λ s. s.left };

    ghost faults = { λ s. s.faults };

    /// Remembers what it gives, or forgets all.
    fn read(&mut self, buffer: &mut [u8]) -> Result<usize, Failed>
        ensures bound { ReadsAtMost result buffer.new }
        ensures bytes { ReadConsumes self.old.left self.new.left result buffer.new }
        ensures cause { HasCause self.old.faults self.new.faults result }
        ensures remembered { IfOk result (λ count. IsRemembered self.old self.new (take count buffer.new)) }
        ensures kept { OnErr result (self.new ≡ record self.old { left = self.new.left; faults = self.new.faults }) }
    {
        match self.inner.read(buffer) {
            Ok(count) => {
                self.remember(&buffer[..count]);
                Ok(count)
            }
            Err(_) => Err(Failed),
        }
    }
}
