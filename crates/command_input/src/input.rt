//! Reading a source to its end, or to a limit.

ghost use Rattle.std.specs.Prelude.{◌≡◌, ℕ, ◌+◌, ◌<◌, ◌≤◌, ◌^◌, true, false, List, ◌++◌, length, OnOk, IfOk, IsErrOf};
ghost use Rattle.std.specs.Io.{ReadsAtMost};
ghost use Rattle.std.specs.Io.KnownBytes.{Consumes, IsAtEnd, Keeps, ReadConsumes};
ghost use Rattle.oa_text.specs.Causes.{HasCause, Rose};
ghost use Rattle.command_input.specs.Inputs.{ReadsFewer, ReadsWithin, standing_after};
ghost use Rattle.command_input.specs.declared.input.InputError.TheVariants.{Memory, Fault};
ghost use Rattle.command_input.specs.declared.input.Standing.TheVariants.{Open};

use oa_text::{Failed, Source};
use std::alloc::{AllocError, Global};

/// Why a source was not read to its end.
#[derive(Clone, Copy, Debug, PartialEq, Eq)]
pub enum InputError {
    Memory,
    Fault,
}

impl From<AllocError> for InputError {
    ghost from_gives = { λ _ e. e ≡ Memory };

    fn from(_e: AllocError) -> InputError {
        InputError::Memory
    }
}

impl From<Failed> for InputError {
    ghost from_gives = { λ _ e. e ≡ Fault };

    fn from(_e: Failed) -> InputError {
        InputError::Fault
    }
}

/// How the reading of a source stands.
#[derive(Clone, Copy)]
enum Standing {
    /// Each read so far gave bytes.
    Open,
    /// A read found the end.
    Ended,
    /// A read failed.
    Broken,
}

/// How far a source was read: how it stands, and how many more bytes may be read.
#[derive(Clone, Copy)]
struct Reading {
    standing: Standing,
    room: usize,
}

impl Reading {
    /// The one place where a source is read. What it requires says that no read is made after the end, after a fault, or if no more
    /// bytes may be read. It does what a read of the source does, and keeps how that stands.
    fn read<S: Source>(&mut self, input: &mut S, buffer: &mut [u8]) -> Result<usize, Failed>
        requires open { self.old.standing ≡ Open }
        requires some { 0 < length buffer.old }
        requires room { length buffer.old ≤ self.old.room }
        ensures bound { ReadsAtMost result buffer.new }
        ensures bytes { ReadConsumes (S.left input.old) (S.left input.new) result buffer.new }
        ensures cause { HasCause (S.faults input.old) (S.faults input.new) result }
        ensures standing { self.new.standing ≡ standing_after result }
        ensures room { IfOk result (λ count. self.new.room + count ≡ self.old.room) }
    {
        let result = input.read(buffer);
        match result {
            Ok(0) => self.standing = Standing::Ended,
            Ok(count) => self.room -= count,
            Err(_) => self.standing = Standing::Broken,
        }
        result
    }

    /// Reads once, no more than there is room for, and adds what came. It answers whether there was any.
    fn read_more<S: Source>(
        &mut self,
        input: &mut S,
        buffer: &mut [u8],
        bytes: &mut Vec<u8>,
    ) -> Result<bool, InputError>
        requires open { self.old.standing ≡ Open }
        requires some { 0 < length buffer.old }
        requires room { 0 < self.old.room }
        ensures buffer { length buffer.new ≡ length buffer.old }
        ensures open { IfOk result (λ more. more ≡ true → self.new.standing ≡ Open) }
        ensures less { IfOk result (λ more. more ≡ true → self.new.room < self.old.room) }
        ensures room { IfOk result (λ _. length bytes.new.items + self.new.room ≡ length bytes.old.items + self.old.room) }
        ensures bytes { IfOk result (λ _. (chunk : List ℕ) × Consumes (S.left input.old) (S.left input.new) chunk × (bytes.new.items ≡ bytes.old.items ++ chunk)) }
        ensures end { IfOk result (λ more. more ≡ false → IsAtEnd (S.left input.new)) }
        ensures kept { OnOk result (S.faults input.new ≡ S.faults input.old) }
        ensures failed { IsErrOf result InputError.Fault → Rose (S.faults input.old) (S.faults input.new) }
        ensures nothing { IsErrOf result InputError.Fault → Keeps (S.left input.old) (S.left input.new) }
        ensures none_failed { IsErrOf result InputError.Memory → S.faults input.new ≡ S.faults input.old }
        ensures within { IsErrOf result InputError.Memory → ReadsWithin self.old.room (S.left input.old) (S.left input.new) }
    {
        let most = self.room.min(buffer.len());
        match self.read(input, &mut buffer[..most]) {
            Ok(0) => Ok(false),
            Ok(count) => {
                bytes.extend_from_slice(&buffer[..count])?;
                Ok(true)
            }
            Err(_) => Err(InputError::Fault),
        }
    }
}

/// The bytes of a source, no more than so many. No read is made after the end, after a fault, or once so many bytes were
/// read.
///
/// # Errors
///
/// `Fault` if a read failed, before so many bytes were read; `Memory` if memory ran out, and no read failed.
#[tactic(auto, using(crate::proofs::Consumed::consumes_more, crate::proofs::Consumed::consumes_none, crate::proofs::Consumed::consumes_kept))]
pub fn read_input<S: Source>(
    alloc: Global,
    input: &mut S,
    limit: usize,
) -> Result<Vec<u8>, InputError>
    requires { limit < 2 ^ 32 }
    ensures bytes { IfOk result (λ v. Consumes (S.left input.old) (S.left input.new) v.items) }
    ensures end { IfOk result (λ v. length v.items < limit → IsAtEnd (S.left input.new)) }
    ensures most { IfOk result (λ v. length v.items ≤ limit) }
    ensures kept { OnOk result (S.faults input.new ≡ S.faults input.old) }
    ensures failed { IsErrOf result InputError.Fault → Rose (S.faults input.old) (S.faults input.new) }
    ensures fewer { IsErrOf result InputError.Fault → ReadsFewer limit (S.left input.old) (S.left input.new) }
    ensures none_failed { IsErrOf result InputError.Memory → S.faults input.new ≡ S.faults input.old }
    ensures within { IsErrOf result InputError.Memory → ReadsWithin limit (S.left input.old) (S.left input.new) }
{
    let mut bytes = Vec::new(alloc);
    let mut buffer = [0; 4096];
    let mut reading = Reading {
        standing: Standing::Open,
        room: limit,
    };
    'reads: while reading.room > 0 {
        if !reading.read_more(input, &mut buffer, &mut bytes)? {
            break;
        }
    }
    Ok(bytes)
}
