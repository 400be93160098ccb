//! The turn at which a replay stopped, found once it is to be told.

ghost use Rattle.std.specs.Prelude.{◌≡◌, ◌≤◌, length};
ghost use Rattle.documents.specs.DocumentLimits.{IsWithinDocumentLimits};
ghost use Rattle.messages.specs.Remembered.{most_remembered, remembered};
ghost use Rattle.oa_cli.specs.verdicts.Stops.{IsStopOf, IsStopIn, IsStopRead, is_stopped, IsStopFor};

use document_runs::whole_turns;
use documents::{Document, read_document};
use line_words::fault::ParseError;
use messages::{RememberingSource, StoppedTurn};
use oa_text::Source;
use script_plans::RunFault;
use statuses::Status;
use std::alloc::Global;

/// The turn at which the replay of a document stops.
fn turn_of(alloc: Global, document: &Document) -> StoppedTurn
    requires { IsWithinDocumentLimits document.now }
    ensures { IsStopOf document.now result }
{
    match whole_turns(alloc, document) {
        Ok(whole) => StoppedTurn::After(whole),
        Err(RunFault::Memory) => StoppedTurn::NoMemory,
        Err(RunFault::Refused(_)) => StoppedTurn::Nowhere,
        Err(RunFault::Shape { .. }) => StoppedTurn::Nowhere,
    }
}

/// The same of the document that bytes are.
fn turn_in(alloc: Global, bytes: &[u8]) -> StoppedTurn
    requires { length bytes.now ≤ most_remembered }
    ensures { IsStopIn bytes.now result }
{
    match read_document(alloc, bytes) {
        Ok(document) => turn_of(alloc, &document),
        Err(ParseError::Memory) => StoppedTurn::NoMemory,
        Err(ParseError::Fault(_)) => StoppedTurn::Nowhere,
    }
}

/// The same of what a source remembers.
fn turn_read<S: Source>(alloc: Global, input: &RememberingSource<S>) -> StoppedTurn
    ensures { IsStopRead (remembered input.now) result }
{
    match input.bytes() {
        Some(bytes) => turn_in(alloc, bytes),
        None => StoppedTurn::NoMemory,
    }
}

fn is_stopped(status: Status) -> bool
    ensures { result ≡ is_stopped status }
{
    match status {
        Status::BadShape { number, .. } => number == 10,
        _ => false,
    }
}

/// The turn that the message on a status tells. It is looked for only if a turn needs a step of nobody.
pub(crate) fn turn_for<S: Source>(
    alloc: Global,
    input: &RememberingSource<S>,
    status: Status,
) -> StoppedTurn
    ensures { IsStopFor (remembered input.now) status result }
{
    if is_stopped(status) {
        turn_read(alloc, input)
    } else {
        StoppedTurn::Nowhere
    }
}
