//! How the program ends, and a message for a person.

ghost use Rattle.std.specs.Prelude.{◌≡◌, ℕ, List};
ghost use Rattle.std.specs.Io.KnownBytes.{Keeps};
ghost use Rattle.oa_text.specs.Causes.{HasCause};
ghost use Rattle.oa_text.specs.Written.{Writes};
ghost use Rattle.messages.specs.Remembered.{remembered};
ghost use Rattle.statuses.specs.Statuses.{number_of};
ghost use Rattle.oa_cli.specs.verdicts.Endings.{is_write_fault, IsFinished, IsMessage, IsExplained};

use crate::verdicts::stopping::turn_for;
use messages::{RememberingSource, explain_read};
use oa_text::{Failed, Sink, Source, StdSink};
use statuses::{Status, status_number};
use std::alloc::Global;
use std::io::Write;

fn is_write_fault(status: Status) -> bool
    ensures { result ≡ is_write_fault status }
{
    matches!(status, Status::WriteFault)
}

/// Hands on what the writer has buffered, at the end: a fault there is a fault of writing like any other. After a fault
/// of writing no more is written.
pub fn finish<W: Write>(out: &mut StdSink<W>, status: Status) -> Status
    ensures bytes { Keeps out.old.written out.new.written }
    ensures status { IsFinished out.old.faults out.new.faults status result }
{
    if is_write_fault(status) {
        return status;
    }
    match out.flush() {
        Ok(()) => status,
        Err(_) => Status::WriteFault,
    }
}

/// Writes the message on a status, with what the source remembers: of a replay that stopped it tells the turn, which is found by
/// a replay of what is remembered.
///
/// # Errors
///
/// `Failed` if a write fails: a prefix of the message was written then.
pub fn explain_status<K: Sink, S: Source>(
    alloc: Global,
    errors: &mut K,
    input: &RememberingSource<S>,
    status: Status,
) -> Result<(), Failed>
    ensures bytes { (message : List ℕ) × IsMessage (remembered input.now) status message × Writes (K.written errors.old) (K.written errors.new) message result }
    ensures cause { HasCause (K.faults errors.old) (K.faults errors.new) result }
{
    let turn = turn_for(alloc, input, status);
    explain_read(alloc, errors, input, status, turn)
}

/// Writes the message on a status to `errors`, for a person, with what the source remembers, and answers the number with
/// which to end. A fault of `errors` changes nothing: a prefix of the message was written then.
pub fn conclude<E: Write, S: Source>(
    alloc: Global,
    errors: &mut StdSink<E>,
    input: &RememberingSource<S>,
    status: Status,
) -> u8
    ensures number { result ≡ number_of status }
    ensures explained { IsExplained errors.old.written errors.new.written errors.old.faults errors.new.faults (remembered input.now) status }
{
    match explain_status(alloc, errors, input, status) {
        Ok(()) => status_number(status),
        Err(_) => status_number(status),
    }
}
