//! What the program does around the top call: the words of its command line, a buffer for what it writes, and the end.

ghost use Rattle.std.specs.Prelude.{◌≡◌, ◌≢◌, [], drop, map, option_map, IfOk, IfErr, IfSome, MatchOption};
ghost use Rattle.std.specs.String.{string_bytes};
ghost use Rattle.std.specs.Vec.Iter.{into_iter_items};
ghost use Rattle.std.specs.IoError.{error_kind};
ghost use Rattle.std.specs.declared.io.ErrorKind.TheVariants.{OutOfMemory};
ghost use Rattle.oa_cli.specs.declared.verdicts.verdict.Verdict.{Verdict};
ghost use Rattle.oa_cli.specs.Judged.{IsJudged, IsJudgedIfHad, FaultsAreTold};
ghost use Rattle.oa_cli.specs.verdicts.Telling.{IsSaid, text_for, status_for};
ghost use Rattle.command_input.specs.Commands.{request_of};
ghost use Rattle.messages.specs.Remembered.{remembered};
ghost use Rattle.oa_cli.specs.verdicts.Endings.{IsExplained};
ghost use Rattle.oa_cli.specs.Complete.{IsComplete};
ghost use Rattle.oa_cli.specs.Headline.{Headline};
ghost use Rattle.statuses.specs.declared.status.Status.{Status};
ghost use Rattle.statuses.specs.Statuses.{number_of};

use crate::top::oa_main;
use crate::verdicts::{Verdict, conclude, finish, say};
use messages::RememberingSource;
use oa_text::{Gate, OpenGate, Source, StdSink, StdSource};
use statuses::Status;
use std::alloc::Global;
use std::env::Args;
use std::io::{BufWriter, ErrorKind, Write};
use std::rt::Env;
use std::thread::Threads;
use std::{env, io};

/// The words after the program's name, or `None` if memory runs out. If they aren't text, there are no words.
pub fn command_words(alloc: Global, args: io::Result<Args>) -> Option<Vec<String>>
    ensures had { IfOk args (λ args. IfSome result (λ words. words.items ≡ drop 1 (into_iter_items args))) }
    ensures failed { IfErr args (λ error. MatchOption result (error_kind error ≡ OutOfMemory) (λ words. (error_kind error ≢ OutOfMemory) × (words.items ≡ []))) }
{
    match args {
        Ok(args) => args.skip(1).collect(alloc).ok(),
        Err(error) if error.kind() == ErrorKind::OutOfMemory => None,
        Err(_) => Some(Vec::new(alloc)),
    }
}

/// Makes the top call, and hands on at the end what the writer has buffered. What the top call promises of a sink, this
/// promises of the writer.
pub fn serve<R: Threads + Sync, S: Source, W: Write, G: Gate + Sync>(
    rt: &R,
    alloc: Global,
    words: &[String],
    input: &mut S,
    out: &mut StdSink<W>,
    gate: &G,
) -> Status
    ensures judged { (verdict : Verdict)
        × IsJudged (map string_bytes words.now) (S.left input.old) (S.left input.new) (S.faults input.old) (S.faults input.new) verdict
        × IsSaid out.old.written out.new.written out.old.faults out.new.faults (text_for verdict) (status_for verdict) result }
    ensures told { FaultsAreTold (S.faults input.old) (S.faults input.new) out.old.faults out.new.faults result }
    ensures complete { IsComplete (request_of (map string_bytes words.now)) (S.left input.old) (S.faults input.old) (S.faults input.new) out.old.faults out.new.faults result }
    ensures headline { Headline (request_of (map string_bytes words.now)) (S.left input.old) out.old.written out.new.written (S.faults input.old) (S.faults input.new) out.old.faults out.new.faults result }
{
    let status = oa_main(rt, alloc, words, input, out, gate);
    finish(out, status)
}

/// Says that memory ran out. It is called if the words could not be had.
fn refuse_for_memory<W: Write>(out: &mut StdSink<W>) -> Status
    ensures { IsSaid out.old.written out.new.written out.old.faults out.new.faults (text_for Verdict.Memory) Status.Memory result }
{
    let status = say(out, &Verdict::Memory);
    finish(out, status)
}

/// Does the command with a source, over a sink. If the words could not be had, it says that memory ran out, and leaves the
/// source unread. What else `serve` promises follows from the first clause.
fn serve_if_had<R: Threads + Sync, S: Source, W: Write>(
    rt: &R,
    alloc: Global,
    words: Option<Vec<String>>,
    input: &mut S,
    out: &mut StdSink<W>,
) -> Status
    ensures judged { (verdict : Verdict)
        × IsJudgedIfHad (option_map (λ words. map string_bytes words.items) words) (S.left input.old) (S.left input.new) (S.faults input.old) (S.faults input.new) verdict
        × IsSaid out.old.written out.new.written out.old.faults out.new.faults (text_for verdict) (status_for verdict) result }
    ensures told { FaultsAreTold (S.faults input.old) (S.faults input.new) out.old.faults out.new.faults result }
{
    match words {
        Some(words) => serve(rt, alloc, &words, input, out, &OpenGate),
        None => refuse_for_memory(out),
    }
}

/// Does the command with a source, over a sink, writes the message on the status to `errors`, and answers the status's number.
fn answer<R: Threads + Sync, S: Source, W: Write, E: Write>(
    rt: &R,
    alloc: Global,
    words: Option<Vec<String>>,
    input: &mut RememberingSource<S>,
    out: &mut StdSink<W>,
    errors: &mut StdSink<E>,
) -> u8
    ensures { (status : Status) × (verdict : Verdict)
        × IsJudgedIfHad (option_map (λ words. map string_bytes words.items) words) input.old.left input.new.left input.old.faults input.new.faults verdict
        × IsSaid out.old.written out.new.written out.old.faults out.new.faults (text_for verdict) (status_for verdict) status
        × IsExplained errors.old.written errors.new.written errors.old.faults errors.new.faults (remembered input.new) status
        × (result ≡ number_of status) }
{
    let status = serve_if_had(rt, alloc, words, input, out);
    conclude(alloc, errors, input, status)
}

/// All that the program does: it answers standard input on standard output, buffered if there is memory for that,
/// writes a message on the status and on what was read to `errors`, and answers the number with which to end. A fault of
/// `errors` changes nothing. No clause says of which status the number is, since std ties neither the arguments nor the standard
/// streams to anything.
pub fn run_program<R: Env + Input + Print + AllocGlobal + Threads + Sync, E: Write + Drop>(
    rt: &R,
    errors: E,
) -> u8
    ensures { (status : Status) × (result ≡ number_of status) }
{
    let alloc = rt.alloc();
    let words = command_words(alloc, env::args(rt));
    let mut source = RememberingSource::new(alloc, StdSource::new(rt.reader()));
    let mut errors = StdSink::new(errors);
    match BufWriter::new(alloc, io::writer(rt)) {
        Ok(buffer) => {
            let mut out = StdSink::new(buffer);
            answer(rt, alloc, words, &mut source, &mut out, &mut errors)
        }
        Err(_) => {
            let mut out = StdSink::new(io::writer(rt));
            answer(rt, alloc, words, &mut source, &mut out, &mut errors)
        }
    }
}
