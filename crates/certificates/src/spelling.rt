//! The canonical spelling of a certificate.

ghost use Rattle.std.specs.Prelude.{◌≡◌, ◌∷◌, ◌++◌, OnOk, IfOk, [], codes, map, decimal, take, option_copied};
ghost use Rattle.std.specs.List.{flat_map};
ghost use Rattle.norm_lang.specs.Spelling.{spaced, line_bytes};
ghost use Rattle.certificates.specs.CertificateSpelling.{owed_lines, call_words, spelled_event, spelled_reply, replies_lines, account_lines, certificate_spelling};
ghost use Rattle.source_machine.specs.declared.event.SourceEvent.TheVariants as events;

use crate::certificate::{Certificate, ReplyList};
use document_spelling::show_document;
use norm_lang::list::Listed;
use norm_lang::spelling::{put_line, put_numbers};
use norm_lang::text::{ByteText, Op};
use norm_lang::word::Word::{Bytes, Number};
use oa_text::put_decimal;
use schedule_turns::Turn;
use source_machine::{SourceEvent, SourceReply};
use std::alloc::{AllocError, Global};

/// The `schedule` line that a document without turns lacks.
fn put_owed(alloc: Global, out: &mut Vec<u8>, schedule: &[Turn]) -> Result<(), AllocError>
    ensures { OnOk result (out.new.items ≡ out.old.items ++ flat_map line_bytes (owed_lines schedule.now)) }
{
    if schedule.is_empty() {
        put_line(alloc, out, b"schedule", &[])
    } else {
        Ok(())
    }
}

/// The first words, as many as an operation takes.
fn taken(words: &[u64], count: usize) -> &[u64]
    ensures { result.now ≡ take count words.now }
{
    if count < words.len() {
        &words[..count]
    } else {
        words
    }
}

/// The name of an operation, and as many of the words as it takes, each after a space.
fn put_call(
    alloc: Global,
    out: &mut Vec<u8>,
    op: Option<&Op>,
    words: &[u64; 4],
) -> Result<(), AllocError>
    ensures { OnOk result (out.new.items ≡ out.old.items ++ spaced (call_words (option_copied op.entry) words.now)) }
{
    out.push(b' ')?;
    match op {
        None => Ok(()),
        Some(op) => {
            out.extend_from_slice(op.name.items())?;
            put_numbers(alloc, out, taken(words.as_slice(), op.args as usize))
        }
    }
}

/// `begin C NAME V V ..`
fn put_begin(
    alloc: Global,
    out: &mut Vec<u8>,
    caller: u32,
    op: Option<&Op>,
    words: &[u64; 4],
) -> Result<(), AllocError>
    ensures { OnOk result (out.new.items ≡ out.old.items ++ line_bytes (codes "begin" ∷ decimal caller ∷ call_words (option_copied op.entry) words.now)) }
{
    out.extend_from_slice(b"begin ")?;
    put_decimal(alloc, out, caller as u64)?;
    put_call(alloc, out, op, words)?;
    out.push(b'\n')?;
    Ok(())
}

/// `access C N`, into the output itself, since most lines are such.
fn put_access(alloc: Global, out: &mut Vec<u8>, caller: u32, name: u64) -> Result<(), AllocError>
    ensures { OnOk result (out.new.items ≡ out.old.items ++ line_bytes (codes "access" ∷ decimal caller ∷ decimal name ∷ [])) }
{
    out.extend_from_slice(b"access ")?;
    put_decimal(alloc, out, caller as u64)?;
    out.push(b' ')?;
    put_decimal(alloc, out, name)?;
    out.push(b'\n')?;
    Ok(())
}

fn put_event(
    alloc: Global,
    out: &mut Vec<u8>,
    ops: &[Op],
    event: &SourceEvent,
) -> Result<(), AllocError>
    ensures { OnOk result (out.new.items ≡ out.old.items ++ line_bytes (spelled_event ops.now event.now)) }
{
    match event {
        SourceEvent::Begin { caller, op, args } => {
            put_begin(alloc, out, *caller, ops.get(*op as usize), args)
        }
        SourceEvent::Access { caller, name } => put_access(alloc, out, *caller, *name),
        SourceEvent::Restart { caller } => {
            put_line(alloc, out, b"restart", &[Number(*caller as u64)])
        }
        SourceEvent::GiveUp { caller, phase } => put_given_up(alloc, out, *caller, *phase),
    }
}

/// `full C` or `phases C P`
fn put_given_up(
    alloc: Global,
    out: &mut Vec<u8>,
    caller: u32,
    phase: Option<u64>,
) -> Result<(), AllocError>
    ensures { OnOk result (out.new.items ≡ out.old.items ++ line_bytes (spelled_event [] (events.GiveUp caller phase))) }
{
    match phase {
        None => put_line(alloc, out, b"full", &[Number(caller as u64)]),
        Some(phase) => {
            let words = [Number(caller as u64), Number(phase)];
            put_line(alloc, out, b"phases", &words)
        }
    }
}

fn put_events(
    alloc: Global,
    out: &mut Vec<u8>,
    ops: &[Op],
    events: &[SourceEvent],
) -> Result<(), AllocError>
    ensures { OnOk result (out.new.items ≡ out.old.items ++ flat_map line_bytes (map (spelled_event ops.now) events.now)) }
{
    for event in events {
        put_event(alloc, out, ops, event)?;
    }
    Ok(())
}

/// `reply C V`
fn put_reply(
    alloc: Global,
    out: &mut Vec<u8>,
    caller: usize,
    reply: SourceReply,
) -> Result<(), AllocError>
    ensures { OnOk result (out.new.items ≡ out.old.items ++ line_bytes (spelled_reply caller reply)) }
{
    let caller = Number(caller as u64);
    match reply {
        SourceReply::Number(n) => put_line(alloc, out, b"reply", &[caller, Number(n)]),
        SourceReply::Nothing => put_line(alloc, out, b"reply", &[caller, Bytes(b"none")]),
        SourceReply::Full => put_line(alloc, out, b"reply", &[caller, Bytes(b"full")]),
        SourceReply::Phases(phase) => {
            let words = [caller, Bytes(b"phases"), Number(phase)];
            put_line(alloc, out, b"reply", &words)
        }
    }
}

fn put_list(
    alloc: Global,
    out: &mut Vec<u8>,
    caller: usize,
    list: &[SourceReply],
) -> Result<(), AllocError>
    ensures { OnOk result (out.new.items ≡ out.old.items ++ flat_map line_bytes (map (spelled_reply caller) list.now)) }
{
    for reply in list {
        put_reply(alloc, out, caller, *reply)?;
    }
    Ok(())
}

fn put_lists(alloc: Global, out: &mut Vec<u8>, lists: &[ReplyList]) -> Result<(), AllocError>
    ensures { OnOk result (out.new.items ≡ out.old.items ++ flat_map line_bytes (replies_lines 0 lists.now)) }
{
    for (caller, list) in lists.iter().enumerate() {
        put_list(alloc, out, caller, list.items())?;
    }
    Ok(())
}

/// The lines behind the document.
fn put_account(
    alloc: Global,
    out: &mut Vec<u8>,
    certificate: &Certificate,
) -> Result<(), AllocError>
    ensures { OnOk result (out.new.items ≡ out.old.items ++ flat_map line_bytes (account_lines certificate.now)) }
{
    let ops = certificate.document.text.ops.items();
    put_line(alloc, out, b"events", &[])?;
    put_events(alloc, out, ops, certificate.events.items())?;
    put_line(alloc, out, b"replies", &[])?;
    put_lists(alloc, out, certificate.replies.items())
}

/// The canonical spelling of a certificate: that of its document, in version 2, with its `schedule` line always there, then `events` and a
/// line for each event, `replies` and a line for each reply, by callers.
///
/// # Errors
///
/// `AllocError` if memory runs out.
#[tactic(auto, using(crate::proofs::Spelled::in_three))]
pub fn show_certificate(alloc: Global, certificate: &Certificate) -> Result<ByteText, AllocError>
    ensures { IfOk result (λ bytes. bytes ≡ certificate_spelling certificate.now) }
{
    let document = show_document(alloc, &certificate.document)?;
    let mut out = Vec::from_slice(alloc, document.items())?;
    put_owed(alloc, &mut out, certificate.document.schedule.items())?;
    put_account(alloc, &mut out, certificate)?;
    Ok(Listed::from_vec(out))
}
