//! Judging a certificate.

ghost use Rattle.std.specs.Prelude.{◌≡◌, length, IfOk};
ghost use Rattle.documents.specs.DocumentLimits.{IsWithinDocumentLimits};
ghost use Rattle.run_judge.specs.Judged.{IsCertificateJudged, IsMeant};

use certificates::Certificate;
use event_judge::{Verdict, judge_events};
use script_plans::{RunFault, readied};
use std::alloc::Global;

/// What is found of a certificate: `Accepted` exactly if its events are a source run of the text that begins the calls of the
/// scripts in order and agrees with the replies; else 1 if an event isn't enabled, 2 if one begins another call than the next of its
/// caller's script, with its place, and 3 if the replies of a caller don't agree, with the first such. The first event that shows 2 or 1
/// decides, 2 before 1.
///
/// Its document's text is within the limits of texts, each of its scripts has at most 100,000 calls, each turn counts at least 1, and it has a
/// list of replies for each script: a certificate that was read has all this.
///
/// # Errors
///
/// `Refused` exactly if the text isn't in normal form, with the first rule that is broken. Else `Shape` exactly if the document's shape
/// is refused, with the first fault, 1 to 9. `Memory` if memory runs out, be it before one of these.
#[tactic(auto, using(crate::proofs::Shaped::some_scripts, crate::proofs::Shaped::few_scripts, crate::proofs::Shaped::means))]
pub fn judge(alloc: Global, certificate: &Certificate) -> Result<Verdict, RunFault>
    requires within { IsWithinDocumentLimits certificate.now.document }
    requires replies { length certificate.now.replies ≡ length certificate.now.document.scripts }
    ensures judged { IsCertificateJudged certificate.now result }
    ensures means { IfOk result (IsMeant certificate.now) }
{
    let document = &certificate.document;
    let normal = readied(alloc, document)?;
    let scripts = document.scripts.items();
    let verdict = judge_events(
        alloc,
        &normal,
        scripts,
        certificate.events.items(),
        certificate.replies.items(),
    )?;
    Ok(verdict)
}
