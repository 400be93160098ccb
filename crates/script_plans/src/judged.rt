//! The text of a document, judged.

ghost use Rattle.std.specs.Prelude.{◌≡◌};
ghost use Rattle.norm_lang.specs.NormalForm.{IsNormal};
ghost use Rattle.documents.specs.DocumentLimits.{IsWithinDocumentLimits};
ghost use Rattle.script_plans.specs.Plans.{IsReadied};

use crate::fault::RunFault;
use crate::plan::shaped;
use caller_parts::Reclamation;
use documents::Document;
use norm_check::{Normal, check};
use std::alloc::Global;

/// A text in normal form, if its document's shape has no fault.
#[tactic(auto, using(crate::proofs::Sized::few_kinds, crate::proofs::Sized::few_nodes))]
fn if_shaped(document: &Document, normal: Normal) -> Result<Normal, RunFault>
    requires within { IsWithinDocumentLimits document.now }
    requires text { normal ≡ document.now.text }
    requires normal { IsNormal document.now.text }
    ensures { IsReadied document.now result }
{
    shaped(Reclamation::Optimistic, document)?;
    Ok(normal)
}

/// The text of a document that can be run. It isn't compiled.
///
/// It is within the limits of texts, each of the document's scripts has at most 100,000 calls, and each turn counts at least 1.
///
/// # Errors
///
/// As those of `plan_of`, with the same places.
pub fn readied(alloc: Global, document: &Document) -> Result<Normal, RunFault>
    requires { IsWithinDocumentLimits document.now }
    ensures { IsReadied document.now result }
{
    let normal = check(alloc, document.text.copy(alloc)?)?;
    if_shaped(document, normal)
}
