//! The reader of certificates.

ghost use Rattle.std.specs.Prelude.{◌≡◌, ◌+◌, ◌<◌, ◌≤◌, ◌^◌, length, Some, IfOk};
ghost use Rattle.oa_text.specs.Lines.{lines_of};
ghost use Rattle.oa_text.specs.Shown.{line_shown};
ghost use Rattle.norm_lang.specs.Faults.{at_line};
ghost use Rattle.line_words.specs.Answered.{Reads, Answers};
ghost use Rattle.documents.specs.DocumentLimits.{IsWithinDocumentLimits};
ghost use Rattle.certificates.specs.Accounts.{no_account, after_lines};
ghost use Rattle.certificates.specs.CertificateRead.{ends_early, events_line, certificate_of, whole, read_at, certificate_read};
ghost use Rattle.certificates.specs.Shown.{cut_shown};

use crate::account::Account;
use crate::certificate::Certificate;
use crate::cut::{Cut, find_events};
use documents::{Document, read_document};
use line_words::fault::{Fault, ParseError, ParseFault, Stop};
use line_words::words::Words;
use norm_lang::text::Op;
use norm_parser::number_past;
use oa_text::{Line, Lines, lines};
use std::alloc::{AllocError, Global};

/// The fault of bytes that end where a further line must follow.
fn ends_early(input: &[u8]) -> ParseFault
    requires { length (lines_of input.now) + 1 < 2 ^ 32 }
    ensures line { result.line ≡ (ends_early input.now).line }
    ensures number { result.number ≡ (ends_early input.now).number }
{
    ParseFault {
        line: number_past(input),
        number: Fault::Form.number(),
    }
}

/// `events` alone.
fn events_alone(line: Line) -> Result<(), Fault>
    ensures { Reads (λ _. tt) result (events_line (line_shown line.entry)) }
{
    let mut words = Words::new(line)?;
    words.first();
    words.end()
}

fn events_line(line: Line) -> Result<(), ParseError>
    ensures { Answers (λ _. tt) result (at_line (line_shown line.entry).number (events_line (line_shown line.entry))) }
{
    match events_alone(line) {
        Ok(()) => Ok(()),
        Err(fault) => Err(Stop::Fault(fault).at(line.number())),
    }
}

/// What the lines behind `events` say.
fn account_of(
    alloc: Global,
    ops: &[Op],
    scripts: usize,
    behind: Lines,
) -> Result<Account, ParseError>
    requires few { length ops.now < 256 }
    ensures { Answers (λ account. account) result (after_lines ops.now scripts no_account behind.entry) }
{
    let mut account = Account::empty(alloc);
    for line in behind {
        account.read_line(alloc, ops, scripts, line)?;
    }
    Ok(account)
}

/// A document, and what is said behind it.
fn certificate_of(
    alloc: Global,
    document: Document,
    account: Account,
) -> Result<Certificate, AllocError>
    ensures says { IfOk result (λ certificate. certificate ≡ certificate_of document account) }
    ensures kept { IfOk result (λ certificate. certificate.document ≡ document) }
{
    let Account {
        events,
        mut replies,
        ..
    } = account;
    replies.grow(alloc, document.scripts.items().len())?;
    Ok(Certificate {
        document,
        events,
        replies: replies.into_lists(),
    })
}

/// The certificate, if the replies have begun.
fn whole(
    alloc: Global,
    input: &[u8],
    document: Document,
    account: Account,
) -> Result<Certificate, ParseError>
    requires { length (lines_of input.now) + 1 < 2 ^ 32 }
    ensures says { Answers (λ certificate. certificate) result (whole input.now document account) }
    ensures kept { IfOk result (λ certificate. certificate.document ≡ document) }
{
    if account.in_replies {
        Ok(certificate_of(alloc, document, account)?)
    } else {
        Err(ParseError::Fault(ends_early(input)))
    }
}

/// The certificate of which the document ends there.
#[tactic(auto, using(crate::proofs::Cuts::fewer_lines))]
fn read_cut(alloc: Global, input: &[u8], cut: Cut) -> Result<Certificate, ParseError>
    requires few { length (lines_of input.now) + 1 < 2 ^ 32 }
    requires within { cut.before ≤ length input.now }
    ensures says { Answers (λ certificate. certificate) result (read_at input.now (Some (cut_shown cut.entry))) }
    ensures limits { IfOk result (λ certificate. IsWithinDocumentLimits certificate.document) }
    ensures slots { IfOk result (λ certificate. length certificate.document.slots ≡ length certificate.document.text.kinds) }
{
    let document = read_document(alloc, &input[..cut.before])?;
    events_line(cut.line)?;
    let scripts = document.scripts.items().len();
    let account = account_of(alloc, document.text.ops.items(), scripts, cut.behind)?;
    whole(alloc, input, document, account)
}

/// The certificate that the bytes spell.
#[tactic(auto, using(crate::proofs::Cuts::room_enough, crate::proofs::Cuts::cut_within))]
fn read_whole(alloc: Global, input: &[u8]) -> Result<Certificate, ParseError>
    requires { length (lines_of input.now) + 1 < 2 ^ 32 }
    ensures exact { Answers (λ certificate. certificate) result (certificate_read input.now) }
    ensures limits { IfOk result (λ certificate. IsWithinDocumentLimits certificate.document) }
    ensures slots { IfOk result (λ certificate. length certificate.document.slots ≡ length certificate.document.text.kinds) }
{
    match find_events(lines(input)) {
        None => {
            read_document(alloc, input)?;
            Err(ParseError::Fault(ends_early(input)))
        }
        Some(cut) => read_cut(alloc, input, cut),
    }
}

/// The certificate that the bytes spell: a document with a `schedule` line, then `events` and event lines, `replies` and reply lines.
///
/// The input has fewer than 2^32 - 1 lines; its length bounds their count.
///
/// # Errors
///
/// `Fault` exactly if the bytes spell no certificate by the grammar, with the grammar's fault: the first line that has one, and its
/// first fault. If the input ends but a further line must follow, the fault is 4 at one more than the number of lines. `Memory` if
/// memory runs out.
#[tactic(auto, using(crate::proofs::WhatIsRead::as_many_lists))]
pub fn read_certificate(alloc: Global, input: &[u8]) -> Result<Certificate, ParseError>
    requires { length (lines_of input.now) + 1 < 2 ^ 32 }
    ensures exact { Answers (λ certificate. certificate) result (certificate_read input.now) }
    ensures limits { IfOk result (λ certificate. IsWithinDocumentLimits certificate.document) }
    ensures slots { IfOk result (λ certificate. length certificate.document.slots ≡ length certificate.document.text.kinds) }
    ensures replies { IfOk result (λ certificate. length certificate.replies ≡ length certificate.document.scripts) }
{
    read_whole(alloc, input)
}
