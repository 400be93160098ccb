//! Messages in the name of a program.

ghost use Rattle.std.specs.Prelude.{ℕ, List};
ghost use Rattle.oa_text.specs.Causes.{HasCause};
ghost use Rattle.oa_text.specs.Written.{Writes};
ghost use Rattle.messages.specs.Remembered.{remembered};
ghost use Rattle.renamed_messages.specs.Renamed.{renamed, IsMessageOf};

use messages::{RememberingSource, StoppedTurn, explain_read};
use oa_text::{Failed, MemorySink, Piece, Sink, Source, write_all, write_pieces};
use statuses::Status;
use std::alloc::Global;

/// Writes a message, with a program's name for that of `oa` at its front.
fn write_renamed<'a, K: Sink>(
    errors: &mut K,
    program: &'a [u8],
    message: &'a [u8],
) -> Result<(), Failed>
    ensures bytes { Writes (K.written errors.old) (K.written errors.new) (renamed program.now message.now) result }
    ensures cause { HasCause (K.faults errors.old) (K.faults errors.new) result }
{
    if message.starts_with(b"oa:") {
        let (_, rest) = message.split_at(3);
        write_pieces(
            errors,
            &[
                Piece::Bytes(program),
                Piece::Bytes(b":"),
                Piece::Bytes(rest),
            ],
        )
    } else {
        write_all(errors, message)
    }
}

/// Writes the message on a status in a program's name, with what the source remembers. If there is no memory for that, it is written as
/// `oa` says it. No message tells a turn at which a replay stopped.
///
/// # Errors
///
/// `Failed` if a write fails: a prefix of the message was written then.
pub fn explain_renamed<K: Sink, S: Source>(
    alloc: Global,
    errors: &mut K,
    program: &[u8],
    input: &RememberingSource<S>,
    status: Status,
) -> Result<(), Failed>
    ensures bytes { (message : List ℕ) × IsMessageOf program.now (remembered input.now) status message × Writes (K.written errors.old) (K.written errors.new) message result }
    ensures cause { HasCause (K.faults errors.old) (K.faults errors.new) result }
{
    let mut sink = MemorySink::new(alloc, usize::MAX, Vec::new(alloc));
    match explain_read(alloc, &mut sink, input, status, StoppedTurn::Nowhere) {
        Ok(()) => write_renamed(errors, program, sink.bytes()),
        Err(_) => explain_read(alloc, errors, input, status, StoppedTurn::Nowhere),
    }
}
