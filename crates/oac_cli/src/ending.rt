//! A message for a person, and the end of the program.

ghost use Rattle.std.specs.Prelude.{◌≡◌};
ghost use Rattle.oa_text.specs.Causes.{HasCause};
ghost use Rattle.oa_text.specs.Written.{Writes};
ghost use Rattle.messages.specs.Remembered.{remembered};
ghost use Rattle.statuses.specs.Statuses.{number_of};
ghost use Rattle.oac_cli.specs.Endings.{IsWritten, IsExplainedBy, IsExplained};
ghost use Rattle.statuses.specs.declared.status.Status.{Status};
ghost use Rattle.oac_cli.specs.declared.texts.TheConstants.{PROGRAM, USAGE};

use crate::texts::{PROGRAM, USAGE};
use messages::RememberingSource;
use oa_text::{Failed, Sink, Source, StdSink, write_all};
use renamed_messages::explain_renamed;
use statuses::{Status, status_number};
use std::alloc::Global;
use std::io::Write;

/// Says how the program is used.
fn explain_usage<K: Sink>(errors: &mut K) -> Result<(), Failed>
    ensures bytes { Writes (K.written errors.old) (K.written errors.new) USAGE.now result }
    ensures cause { HasCause (K.faults errors.old) (K.faults errors.new) result }
{
    write_all(errors, USAGE)
}

/// The same, and answers the number of that status.
fn conclude_usage<E: Write>(errors: &mut StdSink<E>) -> u8
    ensures number { result ≡ number_of Status.Usage }
    ensures explained { IsWritten errors.old.written errors.new.written errors.old.faults errors.new.faults USAGE.now }
{
    match explain_usage(errors) {
        Ok(()) => status_number(Status::Usage),
        Err(_) => status_number(Status::Usage),
    }
}

/// Writes the message of `oa compile` on a status in this program's name, and answers the status's number.
fn conclude_status<E: Write, S: Source>(
    alloc: Global,
    errors: &mut StdSink<E>,
    input: &RememberingSource<S>,
    status: Status,
) -> u8
    ensures number { result ≡ number_of status }
    ensures explained { IsExplainedBy PROGRAM.now errors.old.written errors.new.written errors.old.faults errors.new.faults (remembered input.now) status }
{
    match explain_renamed(alloc, errors, PROGRAM, input, status) {
        Ok(()) => status_number(status),
        Err(_) => status_number(status),
    }
}

/// Writes the message on a status to `errors`, for a person, with what the source remembers, and answers the number with
/// which to end. But for how the program is used, it is the message of `oa compile`, in this program's name. A fault of `errors` changes
/// nothing: a prefix of the message was written then.
pub fn conclude<E: Write, S: Source>(
    alloc: Global,
    errors: &mut StdSink<E>,
    input: &RememberingSource<S>,
    status: Status,
) -> u8
    ensures number { result ≡ number_of status }
    ensures explained { IsExplained errors.old.written errors.new.written errors.old.faults errors.new.faults (remembered input.now) status }
{
    match status {
        Status::Usage => conclude_usage(errors),
        other => conclude_status(alloc, errors, input, other),
    }
}
