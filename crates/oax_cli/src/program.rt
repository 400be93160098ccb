//! What the program does around the top call: the words of its command line, a buffer for what it writes, and the end.

ghost use Rattle.std.specs.Prelude.{◌≡◌, ◌≢◌, [], drop, map, IfOk, IfErr, IfSome, MatchOption};
ghost use Rattle.std.specs.String.{string_bytes};
ghost use Rattle.std.specs.Vec.Iter.{into_iter_items};
ghost use Rattle.std.specs.IoError.{error_kind};
ghost use Rattle.std.specs.Io.KnownBytes.{Keeps};
ghost use Rattle.std.specs.declared.io.ErrorKind.TheVariants.{OutOfMemory};
ghost use Rattle.oax_cli.specs.declared.ending.Ending.{Ending};
ghost use Rattle.oax_cli.specs.declared.verdict.Verdict.{Verdict};
ghost use Rattle.oax_cli.specs.declared.top.Outcome.{Outcome};
ghost use Rattle.oax_cli.specs.Endings.{number_of, IsFinished};
ghost use Rattle.oax_cli.specs.Judgements.{IsJudged, FaultsAreTold, IsNotProper};
ghost use Rattle.oax_cli.specs.Telling.{IsSaid, text_for, ending_for};

use crate::ending::{Ending, ending_number, is_write_fault};
use crate::explaining::explain;
use crate::telling::say;
use crate::top::{Outcome, oax_main};
use crate::verdict::Verdict;
use messages::RememberingSource;
use oa_text::{Source, StdSink, StdSource};
use std::alloc::Global;
use std::env::Args;
use std::io::{BufWriter, ErrorKind, Write};
use std::rt::Env;
use std::{env, io};

/// The words after the program's name, or `None` if memory runs out. If they aren't text, there are no words.
fn command_words(alloc: Global, args: io::Result<Args>) -> Option<Vec<String>>
    ensures had { IfOk args (λ args. IfSome result (λ words. words.items ≡ drop 1 (into_iter_items args))) }
    ensures failed { IfErr args (λ error. MatchOption result (error_kind error ≡ OutOfMemory) (λ words. (error_kind error ≢ OutOfMemory) × (words.items ≡ []))) }
{
    match args {
        Ok(args) => args.skip(1).collect(alloc).ok(),
        Err(error) if error.kind() == ErrorKind::OutOfMemory => None,
        Err(_) => Some(Vec::new(alloc)),
    }
}

/// Hands on what the writer has buffered, at the end: a fault there is a fault of writing like any other. After a fault
/// of writing no more is written.
fn finish<W: Write>(out: &mut StdSink<W>, ending: Ending) -> Ending
    ensures bytes { Keeps out.old.written out.new.written }
    ensures ending { IsFinished out.old.faults out.new.faults ending result }
{
    if is_write_fault(ending) {
        return ending;
    }
    match out.flush() {
        Ok(()) => ending,
        Err(_) => Ending::WriteFault,
    }
}

/// Makes the top call, and hands on at the end what the writer has buffered. What the top call promises of a sink, this
/// promises of the writer.
pub fn serve<S: Source, W: Write>(
    alloc: Global,
    words: &[String],
    input: &mut S,
    out: &mut StdSink<W>,
) -> Outcome
    ensures judged { IsJudged (map string_bytes words.now) (S.left input.old) (S.left input.new) (S.faults input.old) (S.faults input.new) result.verdict }
    ensures said { IsSaid out.old.written out.new.written out.old.faults out.new.faults (text_for result.verdict) (ending_for result.verdict) result.ending }
    ensures told { FaultsAreTold (S.faults input.old) (S.faults input.new) out.old.faults out.new.faults result.ending }
    ensures improper { IsNotProper (S.left input.old) (S.left input.new) result.verdict }
{
    let Outcome { verdict, ending } = oax_main(alloc, words, input, out);
    let ending = finish(out, ending);
    Outcome { verdict, ending }
}

/// Says that memory ran out. It is called if the words could not be had.
fn refuse_for_memory<W: Write>(out: &mut StdSink<W>) -> Outcome
    ensures verdict { result.verdict ≡ Verdict.Memory }
    ensures said { IsSaid out.old.written out.new.written out.old.faults out.new.faults (text_for result.verdict) (ending_for result.verdict) result.ending }
{
    let ending = say(out, &Verdict::Memory);
    let ending = finish(out, ending);
    Outcome {
        verdict: Verdict::Memory,
        ending,
    }
}

/// Does the command with a source, over a sink. If the words could not be had, memory ran out, and the source is left unread.
fn serve_if_had<S: Source, W: Write>(
    alloc: Global,
    words: Option<Vec<String>>,
    input: &mut S,
    out: &mut StdSink<W>,
) -> Outcome
    ensures { IsSaid out.old.written out.new.written out.old.faults out.new.faults (text_for result.verdict) (ending_for result.verdict) result.ending }
{
    match words {
        Some(words) => serve(alloc, &words, input, out),
        None => refuse_for_memory(out),
    }
}

/// The number with which to end, once the message on what became of a command is written to `errors`. A fault of `errors` changes nothing.
fn conclude<S: Source, E: Write>(
    alloc: Global,
    errors: &mut StdSink<E>,
    input: &RememberingSource<S>,
    outcome: &Outcome,
) -> u8
    ensures { result ≡ number_of outcome.now.ending }
{
    match explain(alloc, errors, input, outcome) {
        Ok(()) => ending_number(outcome.ending),
        Err(_) => ending_number(outcome.ending),
    }
}

/// Does the command with a source, over a sink, writes the message on what became of it to `errors`, and answers the number with which to
/// end.
fn answer<S: Source, W: Write, E: Write>(
    alloc: Global,
    words: Option<Vec<String>>,
    input: &mut RememberingSource<S>,
    out: &mut StdSink<W>,
    errors: &mut StdSink<E>,
) -> u8
    ensures { (outcome : Outcome)
        × IsSaid out.old.written out.new.written out.old.faults out.new.faults (text_for outcome.verdict) (ending_for outcome.verdict) outcome.ending
        × (result ≡ number_of outcome.ending) }
{
    let outcome = serve_if_had(alloc, words, input, out);
    conclude(alloc, errors, input, &outcome)
}

/// All that the program does: it answers standard input on standard output, buffered if there is memory for that,
/// writes a message on what was found to `errors`, and answers the number with which to end. No clause says of which ending the number is,
/// since std ties neither the arguments nor the standard streams to anything.
pub fn run_program<R: Env + Input + Print + AllocGlobal, E: Write + Drop>(rt: &R, errors: E) -> u8
    ensures { (ending : Ending) × (result ≡ number_of ending) }
{
    let alloc = rt.alloc();
    let words = command_words(alloc, env::args(rt));
    let mut source = RememberingSource::new(alloc, StdSource::new(rt.reader()));
    let mut errors = StdSink::new(errors);
    match BufWriter::new(alloc, io::writer(rt)) {
        Ok(buffer) => {
            let mut out = StdSink::new(buffer);
            answer(alloc, words, &mut source, &mut out, &mut errors)
        }
        Err(_) => {
            let mut out = StdSink::new(io::writer(rt));
            answer(alloc, words, &mut source, &mut out, &mut errors)
        }
    }
}
