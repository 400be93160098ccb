//! Certificates of runs: made of documents, and judged.

ghost use Rattle.std.specs.Prelude.{◌≡◌, ◌<◌, length};
ghost use Rattle.documents.specs.DocumentLimits.{IsWithinDocumentLimits};
ghost use Rattle.command_input.specs.declared.command.Command.{Command};
ghost use Rattle.oa_cli.specs.Judged.{IsFound, IsOfDocument, IsOfSource, IsFoundOfCertificate, IsOfCertificate, IsOfCertificateBytes};
ghost use Rattle.run_judge.specs.Made.{IsCertificateOf};

use crate::reading::read_source;
use crate::top::{fault_verdict, refused};
use crate::verdicts::Verdict;
use documents::Document;
use line_words::fault::ParseError;
use norm_check::Refusal;
use oa_text::Source;
use run_judge::laws::short_is_told;
use run_judge::{
    Certificate, Verdict as Judgement, falls_short, judge, make_certificate, read_certificate,
    show_certificate,
};
use statuses::limits::CERTIFICATE_LIMIT;
use std::alloc::Global;

/// Makes the calls of a document under its schedule, and writes out the certificate of that run.
pub(crate) fn certify_verdict(alloc: Global, document: &Document) -> Result<Verdict, Refusal>
    requires { IsWithinDocumentLimits document.now }
    ensures { IsFound Command.Certify document.now result }
{
    match make_certificate(alloc, document) {
        Ok(certificate) => Ok(certificate_shown(alloc, document, &certificate)),
        Err(fault) => fault_verdict(fault),
    }
}

/// Writes out the certificate of a document's replay.
fn certificate_shown(alloc: Global, document: &Document, certificate: &Certificate) -> Verdict
    requires { IsCertificateOf document.now certificate.now }
    ensures { IsOfDocument Command.Certify document.now result }
{
    // A law: if a certificate falls short, the replay's report does.
    short_is_told();
    match show_certificate(alloc, certificate) {
        Ok(spelling) => Verdict::Certified {
            spelling,
            partial: falls_short(certificate),
        },
        Err(_) => Verdict::Memory,
    }
}

/// Judges a certificate, and finds a verdict, or the first rule that its document's text breaks.
fn find_judgement(alloc: Global, certificate: &Certificate) -> Result<Verdict, Refusal>
    requires within { IsWithinDocumentLimits certificate.now.document }
    requires replies { length certificate.now.replies ≡ length certificate.now.document.scripts }
    ensures { IsFoundOfCertificate certificate.now result }
{
    match judge(alloc, certificate) {
        Ok(Judgement::Accepted) => Ok(Verdict::Accepted),
        Ok(Judgement::Rejected { number, at }) => Ok(Verdict::Rejected { number, at }),
        Err(fault) => fault_verdict(fault),
    }
}

/// Judges a certificate.
fn certificate_verdict(alloc: Global, certificate: Certificate) -> Verdict
    requires within { IsWithinDocumentLimits certificate.document }
    requires replies { length certificate.replies ≡ length certificate.document.scripts }
    ensures { IsOfCertificate certificate result }
{
    match find_judgement(alloc, &certificate) {
        Ok(verdict) => {
            drop(certificate);
            verdict
        }
        Err(refusal) => certificate_refused(certificate, refusal),
    }
}

/// The verdict on a certificate whose document's text breaks a rule.
fn certificate_refused(certificate: Certificate, refusal: Refusal) -> Verdict
    ensures { result ≡ Verdict.Refused certificate.document.text refusal }
{
    let Certificate { document, .. } = certificate;
    refused(document, refusal)
}

/// Reads the bytes as a certificate, and judges it.
fn judge_certificate_bytes(alloc: Global, bytes: &[u8]) -> Verdict
    requires { length bytes.now < CERTIFICATE_LIMIT }
    ensures { IsOfCertificateBytes bytes.now result }
{
    match read_certificate(alloc, bytes) {
        Ok(certificate) => certificate_verdict(alloc, certificate),
        Err(ParseError::Fault(fault)) => Verdict::BadDocument(fault),
        Err(ParseError::Memory) => Verdict::Memory,
    }
}

/// Reads the source to its end, and judges the certificate that it has.
pub(crate) fn judge_certificate<S: Source>(alloc: Global, input: &mut S) -> Verdict
    ensures { IsOfSource CERTIFICATE_LIMIT IsOfCertificateBytes (S.left input.old) (S.left input.new) (S.faults input.old) (S.faults input.new) result }
{
    match read_source(alloc, input, CERTIFICATE_LIMIT) {
        Ok(bytes) => judge_certificate_bytes(alloc, bytes.items()),
        Err(verdict) => verdict,
    }
}
