//! Plans of the documents that rows spell.

ghost use Rattle.std.specs.Prelude.{IfSome};
ghost use Rattle.documents.specs.DocumentLimits.{IsWithinDocumentLimits};
ghost use Rattle.script_plans.specs.Plans.{IsReady};
ghost use Rattle.script_plans.specs.EpochPlans.{IsEpochReady};

use documents::{Document, read_document};
use row_spelling::few;
use script_plans::{EpochPlan, Plan, epoch_plan_of, plan_of};
use std::alloc::Global;

/// The document that bytes spell.
fn document_in(alloc: Global, input: &[u8]) -> Option<Document>
    ensures { IfSome result (λ document. IsWithinDocumentLimits document) }
{
    if !few(input) {
        return None;
    }
    match read_document(alloc, input) {
        Ok(document) => Some(document),
        Err(_) => None,
    }
}

/// The plan of a document, if it can be run.
fn plan_in(alloc: Global, document: &Document) -> Option<Plan>
    requires { IsWithinDocumentLimits document.now }
    ensures { IfSome result (λ plan. IsReady plan) }
{
    match plan_of(alloc, document) {
        Ok(plan) => Some(plan),
        Err(_) => None,
    }
}

/// The plan of the document that bytes spell.
pub(crate) fn planned(alloc: Global, input: &[u8]) -> Option<Plan>
    ensures { IfSome result (λ plan. IsReady plan) }
{
    let document = document_in(alloc, input)?;
    let plan = plan_in(alloc, &document);
    drop(document);
    plan
}

/// The plan of a document under epochs, if it can be run.
fn epoch_plan_in(alloc: Global, document: &Document) -> Option<EpochPlan>
    requires { IsWithinDocumentLimits document.now }
    ensures { IfSome result (λ plan. IsEpochReady plan) }
{
    match epoch_plan_of(alloc, document) {
        Ok(plan) => Some(plan),
        Err(_) => None,
    }
}

/// The plan under epochs of the document that bytes spell.
pub(crate) fn epoch_planned(alloc: Global, input: &[u8]) -> Option<EpochPlan>
    ensures { IfSome result (λ plan. IsEpochReady plan) }
{
    let document = document_in(alloc, input)?;
    let plan = epoch_plan_in(alloc, &document);
    drop(document);
    plan
}
