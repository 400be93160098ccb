//! What the program does around the top call: the words of its command line, a buffer for what it writes, and the end.

ghost use Rattle.std.specs.Prelude.{◌≡◌, map, option_map};
ghost use Rattle.std.specs.String.{string_bytes};
ghost use Rattle.messages.specs.Remembered.{remembered};
ghost use Rattle.oa_cli.specs.declared.verdicts.verdict.Verdict.{Verdict};
ghost use Rattle.oa_cli.specs.Judged.{FaultsAreTold};
ghost use Rattle.oa_cli.specs.verdicts.Telling.{IsSaid, text_for, status_for};
ghost use Rattle.oac_cli.specs.Judged.{IsJudged, IsJudgedIfHad, IsComplete};
ghost use Rattle.oac_cli.specs.Endings.{IsExplained};
ghost use Rattle.statuses.specs.declared.status.Status.{Status};
ghost use Rattle.statuses.specs.Statuses.{number_of};

use crate::ending::conclude;
use crate::top::oac_main;
use messages::RememberingSource;
use oa_cli::verdicts::{Verdict, say};
use oa_cli::{command_words, finish};
use oa_text::{Source, StdSink, StdSource};
use statuses::Status;
use std::alloc::Global;
use std::io::{BufWriter, Write};
use std::rt::Env;
use std::{env, io};

/// Makes the top call, and hands on at the end what the writer has buffered. What the top call promises of a sink, this
/// promises of the writer.
pub fn serve<S: Source, W: Write>(
    alloc: Global,
    words: &[String],
    input: &mut S,
    out: &mut StdSink<W>,
) -> Status
    ensures judged { (verdict : Verdict)
        × IsJudged (map string_bytes words.now) (S.left input.old) (S.left input.new) (S.faults input.old) (S.faults input.new) verdict
        × IsSaid out.old.written out.new.written out.old.faults out.new.faults (text_for verdict) (status_for verdict) result }
    ensures told { FaultsAreTold (S.faults input.old) (S.faults input.new) out.old.faults out.new.faults result }
    ensures complete { IsComplete (map string_bytes words.now) (S.left input.old) out.old.written out.new.written (S.faults input.old) (S.faults input.new) out.old.faults out.new.faults result }
{
    let status = oac_main(alloc, words, input, out);
    finish(out, status)
}

/// Says that memory ran out. It is called if the words could not be had.
fn refuse_for_memory<W: Write>(out: &mut StdSink<W>) -> Status
    ensures { IsSaid out.old.written out.new.written out.old.faults out.new.faults (text_for Verdict.Memory) Status.Memory result }
{
    let status = say(out, &Verdict::Memory);
    finish(out, status)
}

/// Does what the words ask for with a source, over a sink. If the words could not be had, it says that memory ran out, and leaves the
/// source unread.
fn serve_if_had<S: Source, W: Write>(
    alloc: Global,
    words: Option<Vec<String>>,
    input: &mut S,
    out: &mut StdSink<W>,
) -> Status
    ensures { (verdict : Verdict)
        × IsJudgedIfHad (option_map (λ words. map string_bytes words.items) words) (S.left input.old) (S.left input.new) (S.faults input.old) (S.faults input.new) verdict
        × IsSaid out.old.written out.new.written out.old.faults out.new.faults (text_for verdict) (status_for verdict) result }
{
    match words {
        Some(words) => serve(alloc, &words, input, out),
        None => refuse_for_memory(out),
    }
}

/// Does what the words ask for, writes the message on the status to `errors`, and answers the status's number.
fn answer<S: Source, W: Write, E: Write>(
    alloc: Global,
    words: Option<Vec<String>>,
    input: &mut RememberingSource<S>,
    out: &mut StdSink<W>,
    errors: &mut StdSink<E>,
) -> u8
    ensures { (status : Status) × (verdict : Verdict)
        × IsJudgedIfHad (option_map (λ words. map string_bytes words.items) words) input.old.left input.new.left input.old.faults input.new.faults verdict
        × IsSaid out.old.written out.new.written out.old.faults out.new.faults (text_for verdict) (status_for verdict) status
        × IsExplained errors.old.written errors.new.written errors.old.faults errors.new.faults (remembered input.new) status
        × (result ≡ number_of status) }
{
    let status = serve_if_had(alloc, words, input, out);
    conclude(alloc, errors, input, status)
}

/// All that the program does: it answers standard input on standard output, buffered if there is memory for that,
/// writes a message on the status and on what was read to `errors`, and answers the number with which to end. A fault of
/// `errors` changes nothing. No clause says of which status the number is, since std ties neither the arguments nor the standard
/// streams to anything.
pub fn run_program<R: Env + Input + Print + AllocGlobal, E: Write + Drop>(rt: &R, errors: E) -> u8
    ensures { (status : Status) × (result ≡ number_of status) }
{
    let alloc = rt.alloc();
    let words = command_words(alloc, env::args(rt));
    let mut source = RememberingSource::new(alloc, StdSource::new(rt.reader()));
    let mut errors = StdSink::new(errors);
    match BufWriter::new(alloc, io::writer(rt)) {
        Ok(buffer) => {
            let mut out = StdSink::new(buffer);
            answer(alloc, words, &mut source, &mut out, &mut errors)
        }
        Err(_) => {
            let mut out = StdSink::new(io::writer(rt));
            answer(alloc, words, &mut source, &mut out, &mut errors)
        }
    }
}
