//! Judging a certificate.

ghost use Rattle.std.specs.Prelude.{◌≡◌, ◌<◌, ◌≤◌, length};
ghost use Rattle.documents.specs.DocumentLimits.{IsWithinDocumentLimits};
ghost use Rattle.statuses.specs.declared.limits.TheConstants.{CERTIFICATE_LIMIT};
ghost use Rattle.oax_cli.specs.Judgements.{IsShownIf, IsCertificateJudged, IsFoundOfCertificate, IsOfCertificate, IsOfCertificateBytes};
ghost use Rattle.oax_cli.specs.Readings.{IsOfSource};

use crate::explaining::{breach_message, stop_message};
use crate::input::read_source;
use crate::verdict::Verdict;
use certificates::{Certificate, read_certificate};
use documents::Document;
use line_words::fault::ParseError;
use norm_check::{Normal, Refusal};
use oa_text::Source;
use proper_judge::{SoFar, judge_run};
use script_plans::{RunFault, readied};
use source_machine::SourceEvent;
use statuses::limits::CERTIFICATE_LIMIT;
use std::alloc::Global;

/// What the events of a certificate, read of these bytes, show of its text.
fn judge_events(
    alloc: Global,
    bytes: &[u8],
    normal: &Normal,
    callers: u32,
    events: &[SourceEvent],
) -> Result<Verdict, RunFault>
    requires short { length bytes.now < CERTIFICATE_LIMIT }
    requires some { 1 ≤ callers }
    ensures { IsShownIf normal.now callers events.now result }
{
    let verdict = match judge_run(alloc, normal, callers, events)? {
        SoFar::Proper => Verdict::Proper,
        SoFar::Improper { breach, at } => Verdict::Improper {
            breach,
            at,
            message: breach_message(alloc, bytes, normal, callers, events, breach, at),
        },
        SoFar::NotEnabled { at } => Verdict::NotEnabled {
            at,
            message: stop_message(alloc, bytes, at),
        },
    };
    Ok(verdict)
}

/// What a certificate, read of these bytes, shows of its text.
fn judge(alloc: Global, bytes: &[u8], certificate: &Certificate) -> Result<Verdict, RunFault>
    requires within { IsWithinDocumentLimits certificate.now.document }
    requires short { length bytes.now < CERTIFICATE_LIMIT }
    ensures { IsCertificateJudged certificate.now result }
{
    let document = &certificate.document;
    let normal = readied(alloc, document)?;
    let callers = document.scripts.items().len();
    judge_events(
        alloc,
        bytes,
        &normal,
        callers as u32,
        certificate.events.items(),
    )
}

/// Judges a certificate, and finds a verdict, or the first rule that its document's text breaks.
fn find_verdict(alloc: Global, bytes: &[u8], certificate: &Certificate) -> Result<Verdict, Refusal>
    requires within { IsWithinDocumentLimits certificate.now.document }
    requires short { length bytes.now < CERTIFICATE_LIMIT }
    ensures { IsFoundOfCertificate certificate.now result }
{
    match judge(alloc, bytes, certificate) {
        Ok(verdict) => Ok(verdict),
        Err(RunFault::Memory) => Ok(Verdict::Memory),
        Err(RunFault::Refused(refusal)) => Err(refusal),
        Err(RunFault::Shape { number, at }) => Ok(Verdict::BadShape { number, at }),
    }
}

/// Judges a certificate.
fn certificate_verdict(alloc: Global, bytes: &[u8], certificate: Certificate) -> Verdict
    requires within { IsWithinDocumentLimits certificate.document }
    requires short { length bytes.now < CERTIFICATE_LIMIT }
    ensures { IsOfCertificate certificate result }
{
    match find_verdict(alloc, bytes, &certificate) {
        Ok(verdict) => {
            drop(certificate);
            verdict
        }
        Err(refusal) => refused(certificate, refusal),
    }
}

/// The verdict on a certificate whose document's text breaks a rule.
fn refused(certificate: Certificate, refusal: Refusal) -> Verdict
    ensures { result ≡ Verdict.Refused certificate.document.text refusal }
{
    let Certificate { document, .. } = certificate;
    let Document { text, .. } = document;
    Verdict::Refused(text, refusal)
}

/// Reads the bytes as a certificate, and judges it.
fn judge_bytes(alloc: Global, bytes: &[u8]) -> Verdict
    requires { length bytes.now < CERTIFICATE_LIMIT }
    ensures { IsOfCertificateBytes bytes.now result }
{
    match read_certificate(alloc, bytes) {
        Ok(certificate) => certificate_verdict(alloc, bytes, certificate),
        Err(ParseError::Fault(fault)) => Verdict::BadCertificate(fault),
        Err(ParseError::Memory) => Verdict::Memory,
    }
}

/// Reads the source to its end, and judges the certificate that it has.
pub(crate) fn judge_source<S: Source>(alloc: Global, input: &mut S) -> Verdict
    ensures { IsOfSource CERTIFICATE_LIMIT IsOfCertificateBytes (S.left input.old) (S.left input.new) (S.faults input.old) (S.faults input.new) result }
{
    match read_source(alloc, input, CERTIFICATE_LIMIT) {
        Ok(bytes) => judge_bytes(alloc, bytes.items()),
        Err(verdict) => verdict,
    }
}
