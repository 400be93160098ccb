//! The top call.

ghost use Rattle.std.specs.Prelude.{◌≡◌, ◌≤◌, ◌<◌, length, map, IfOk};
ghost use Rattle.std.specs.String.{string_bytes};
ghost use Rattle.target_code.specs.TargetSpelling.{target_spelling};
ghost use Rattle.target_code.specs.Barred.{IsBarred};
ghost use Rattle.target_code.specs.SecondScheme.{second_scheme};
ghost use Rattle.documents.specs.DocumentLimits.{most_calls, IsWithinDocumentLimits};
ghost use Rattle.oa_words.specs.declared.limits.TheConstants.{MOST_CALLERS};
ghost use Rattle.oa_cli.specs.declared.verdicts.verdict.Verdict.{Verdict};
ghost use Rattle.command_input.specs.Commands.{request_of};
ghost use Rattle.oa_cli.specs.Complete.{IsComplete};
ghost use Rattle.oa_cli.specs.Headline.{Headline};
ghost use Rattle.oa_cli.specs.Judged.{IsOfDocument, IsFound, IsOfBytes, IsOfSource, IsOfWorkload, IsJudged, FaultsAreTold, fault_verdict};
ghost use Rattle.oa_cli.specs.verdicts.Telling.{IsSaid, text_for, status_for};

use crate::certifying::{certify_verdict, judge_certificate};
use crate::reading::read_source;
use crate::rules::judge_text;
use crate::verdicts::{Verdict, say};
use barrier_compiler::compile;
use command_input::{Command, Request, request_of};
use documents::{Document, read_document};
use line_words::fault::ParseError;
use norm_check::{CheckError, Normal, Refusal};
use norm_lang::show;
use norm_lang::text::ByteText;
use oa_text::{Gate, Sink, Source};
use script_driver::{epoch_document, replay_document, run_document, run_workload, show_document};
use script_plans::RunFault;
use statuses::Status;
use statuses::limits::DOCUMENT_LIMIT;
use std::alloc::{AllocError, Global};
use std::thread::Threads;
use target_code::show_target;

/// Does what a command asks for with a document.
fn judge_document<R: Threads + Sync, G: Gate + Sync>(
    rt: &R,
    alloc: Global,
    command: Command,
    document: Document,
    gate: &G,
) -> Verdict
    requires { IsWithinDocumentLimits document }
    ensures { IsOfDocument command document result }
{
    match find_verdict(rt, alloc, command, &document, gate) {
        Ok(verdict) => {
            drop(document);
            verdict
        }
        Err(refusal) => refused(document, refusal),
    }
}

/// The verdict on a document whose text breaks a rule.
pub fn refused(document: Document, refusal: Refusal) -> Verdict
    ensures { result ≡ Verdict.Refused document.text refusal }
{
    Verdict::Refused(document.text, refusal)
}

/// The verdict of a command on a document, or the first rule that its text breaks.
fn find_verdict<R: Threads + Sync, G: Gate + Sync>(
    rt: &R,
    alloc: Global,
    command: Command,
    document: &Document,
    gate: &G,
) -> Result<Verdict, Refusal>
    requires { IsWithinDocumentLimits document.now }
    ensures { IsFound command document.now result }
{
    match command {
        Command::Run => run_verdict(rt, alloc, document, gate),
        Command::Replay => replay_verdict(alloc, document),
        Command::Epochs => epoch_verdict(rt, alloc, document, gate),
        Command::Check => check_verdict(alloc, document),
        Command::Show => Ok(show_verdict(alloc, document)),
        Command::Upgrade => Ok(upgrade_verdict(alloc, document)),
        Command::Compile => compile_verdict(alloc, document),
        Command::Certify => certify_verdict(alloc, document),
    }
}

/// Writes out the text of a document.
fn show_verdict(alloc: Global, document: &Document) -> Verdict
    requires { IsWithinDocumentLimits document.now }
    ensures { IsOfDocument Command.Show document.now result }
{
    match show(alloc, &document.text) {
        Ok(spelling) => Verdict::Shown(spelling),
        Err(_) => Verdict::Memory,
    }
}

/// Writes out a whole document.
fn upgrade_verdict(alloc: Global, document: &Document) -> Verdict
    ensures { IsOfDocument Command.Upgrade document.now result }
{
    match show_document(alloc, document) {
        Ok(spelling) => Verdict::Shown(spelling),
        Err(_) => Verdict::Memory,
    }
}

/// Judges the text of a document by the rules.
fn check_verdict(alloc: Global, document: &Document) -> Result<Verdict, Refusal>
    requires { IsWithinDocumentLimits document.now }
    ensures { IsFound Command.Check document.now result }
{
    match judge_text(alloc, &document.text) {
        Ok(_) => Ok(Verdict::Accepted),
        Err(CheckError::Refused(refusal)) => Err(refusal),
        Err(CheckError::Memory) => Ok(Verdict::Memory),
    }
}

/// Compiles the text of a document, if the rules accept it.
fn compile_verdict(alloc: Global, document: &Document) -> Result<Verdict, Refusal>
    requires { IsWithinDocumentLimits document.now }
    ensures { IsFound Command.Compile document.now result }
{
    match judge_text(alloc, &document.text) {
        Ok(normal) => match compiled(alloc, &normal) {
            Ok(spelling) => Ok(Verdict::Compiled(spelling)),
            Err(_) => Ok(Verdict::Memory),
        },
        Err(CheckError::Refused(refusal)) => Err(refusal),
        Err(CheckError::Memory) => Ok(Verdict::Memory),
    }
}

/// The canonical spelling of what a text compiles to.
fn compiled(alloc: Global, normal: &Normal) -> Result<ByteText, AllocError>
    ensures same { IfOk result (λ spelling. spelling ≡ target_spelling (second_scheme normal.now)) }
    ensures barred { IfOk result (λ _. IsBarred (second_scheme normal.now) normal.now) }
{
    let target = compile(alloc, normal)?;
    show_target(alloc, &target)
}

/// Why a document can't be run.
pub(crate) fn fault_verdict(fault: RunFault) -> Result<Verdict, Refusal>
    ensures { result ≡ fault_verdict fault }
{
    match fault {
        RunFault::Memory => Ok(Verdict::Memory),
        RunFault::Refused(refusal) => Err(refusal),
        RunFault::Shape { number, at } => Ok(Verdict::BadShape { number, at }),
    }
}

/// Makes the calls of a document, by callers on threads.
fn run_verdict<R: Threads + Sync, G: Gate + Sync>(
    rt: &R,
    alloc: Global,
    document: &Document,
    gate: &G,
) -> Result<Verdict, Refusal>
    requires { IsWithinDocumentLimits document.now }
    ensures { IsFound Command.Run document.now result }
{
    match run_document(rt, alloc, document, gate) {
        Ok(report) => Ok(Verdict::Answered(report)),
        Err(fault) => fault_verdict(fault),
    }
}

/// Makes the calls of a document on its text as it is, under epochs, by callers on threads.
fn epoch_verdict<R: Threads + Sync, G: Gate + Sync>(
    rt: &R,
    alloc: Global,
    document: &Document,
    gate: &G,
) -> Result<Verdict, Refusal>
    requires { IsWithinDocumentLimits document.now }
    ensures { IsFound Command.Epochs document.now result }
{
    match epoch_document(rt, alloc, document, gate) {
        Ok(report) => Ok(Verdict::Answered(report)),
        Err(fault) => fault_verdict(fault),
    }
}

/// Makes the calls of a document under its schedule.
fn replay_verdict(alloc: Global, document: &Document) -> Result<Verdict, Refusal>
    requires { IsWithinDocumentLimits document.now }
    ensures { IsFound Command.Replay document.now result }
{
    match replay_document(alloc, document) {
        Ok(report) => Ok(Verdict::Answered(report)),
        Err(fault) => fault_verdict(fault),
    }
}

/// Reads the bytes as a document, and does what the command asks for.
fn judge_bytes<R: Threads + Sync, G: Gate + Sync>(
    rt: &R,
    alloc: Global,
    command: Command,
    bytes: &[u8],
    gate: &G,
) -> Verdict
    requires { length bytes.now < DOCUMENT_LIMIT }
    ensures { IsOfBytes command bytes.now result }
{
    match read_document(alloc, bytes) {
        Ok(document) => judge_document(rt, alloc, command, document, gate),
        Err(ParseError::Fault(fault)) => Verdict::BadDocument(fault),
        Err(ParseError::Memory) => Verdict::Memory,
    }
}

/// Reads the source to its end, and judges its bytes.
fn judge_source<R: Threads + Sync, S: Source, G: Gate + Sync>(
    rt: &R,
    alloc: Global,
    command: Command,
    input: &mut S,
    gate: &G,
) -> Verdict
    ensures { IsOfSource DOCUMENT_LIMIT (IsOfBytes command) (S.left input.old) (S.left input.new) (S.faults input.old) (S.faults input.new) result }
{
    match read_source(alloc, input, DOCUMENT_LIMIT) {
        Ok(bytes) => judge_bytes(rt, alloc, command, bytes.items(), gate),
        Err(verdict) => verdict,
    }
}

/// Runs both documents of a workload.
fn workload_verdict<R: Threads + Sync, G: Gate + Sync>(
    rt: &R,
    alloc: Global,
    count: u32,
    callers: u32,
    gate: &G,
) -> Verdict
    requires count { (1 ≤ count) × (count ≤ most_calls) }
    requires callers { (1 ≤ callers) × (callers ≤ MOST_CALLERS) }
    ensures { IsOfWorkload count callers result }
{
    match run_workload(rt, alloc, count, callers, gate) {
        Ok(report) => Verdict::Worked(report),
        Err(_) => Verdict::Memory,
    }
}

/// Does what the words ask for. Words that ask for nothing leave the source unread, and so does a workload.
fn judge<R: Threads + Sync, S: Source, G: Gate + Sync>(
    rt: &R,
    alloc: Global,
    words: &[String],
    input: &mut S,
    gate: &G,
) -> Verdict
    ensures { IsJudged (map string_bytes words.now) (S.left input.old) (S.left input.new) (S.faults input.old) (S.faults input.new) result }
{
    match request_of(words) {
        None => Verdict::Usage,
        Some(Request::OfDocument(command)) => judge_source(rt, alloc, command, input, gate),
        Some(Request::OfCertificate) => judge_certificate(alloc, input),
        Some(Request::Workload { count, callers }) => {
            workload_verdict(rt, alloc, count, callers, gate)
        }
    }
}

/// Does all that the program does: reads the words and the source, and writes the answers to the document's calls, or that its
/// text is accepted, or its text, or the whole document, or what the text compiles to, or a certificate of its replay, or what is
/// found of a certificate, or what the answers of a workload add up to, or why there are none. The first clause has three parts:
/// what was read and judged, what was said, and the status. The second says that each fault is told. The third says that all is
/// answered which nothing refuses, if memory suffices; by the first the whole text was written then, and each call has a reply
/// at `Done`; of a certificate what is found of it is told. The fourth says what `run`, `replay` and `epochs` promise, with
/// all the premises: see `Headline`. The gate is handed to the callers of `run`, of `epochs` and of a workload; it changes nothing but how
/// their steps interleave.
pub fn oa_main<R: Threads + Sync, S: Source, K: Sink, G: Gate + Sync>(
    rt: &R,
    alloc: Global,
    words: &[String],
    input: &mut S,
    out: &mut K,
    gate: &G,
) -> Status
    ensures judged { (verdict : Verdict)
        × IsJudged (map string_bytes words.now) (S.left input.old) (S.left input.new) (S.faults input.old) (S.faults input.new) verdict
        × IsSaid (K.written out.old) (K.written out.new) (K.faults out.old) (K.faults out.new) (text_for verdict) (status_for verdict) result }
    ensures told { FaultsAreTold (S.faults input.old) (S.faults input.new) (K.faults out.old) (K.faults out.new) result }
    ensures complete { IsComplete (request_of (map string_bytes words.now)) (S.left input.old) (S.faults input.old) (S.faults input.new) (K.faults out.old) (K.faults out.new) result }
    ensures headline { Headline (request_of (map string_bytes words.now)) (S.left input.old) (K.written out.old) (K.written out.new) (S.faults input.old) (S.faults input.new) (K.faults out.old) (K.faults out.new) result }
{
    let verdict = judge(rt, alloc, words, input, gate);
    say(out, &verdict)
}
