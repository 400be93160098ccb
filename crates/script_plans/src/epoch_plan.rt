//! The plan of a document whose callers run its text as it is.

ghost use Rattle.std.specs.Prelude.{◌≡◌, None, IfOk, IfErr};
ghost use Rattle.norm_lang.specs.NormalForm.{IsNormal};
ghost use Rattle.documents.specs.DocumentLimits.{IsWithinDocumentLimits};
ghost use Rattle.script_plans.specs.Shapes.{epoch_setting_of, shape_fault};
ghost use Rattle.script_plans.specs.Plans.{calls_of, AllTakeWords, IsFaultOf};
ghost use Rattle.script_plans.specs.EpochPlans.{IsEpochPlanned, IsEpochReady};

use crate::calls::calls_of;
use crate::fault::RunFault;
use crate::plan::{CallLists, shaped};
use caller_parts::{Reclamation, Setting};
use documents::Document;
use norm_check::{Normal, check};
use std::alloc::Global;

/// What the callers of a document run under epochs: its text as it is, the setting of the row, the calls of each caller, and how many
/// steps may be made for each call.
#[derive(Drop)]
pub struct EpochPlan {
    pub normal: Normal,
    pub setting: Setting,
    pub scripts: CallLists,
    pub fuel: u64,
}

/// The setting and the calls of a document whose text is in normal form.
#[tactic(auto, using(crate::proofs::Sized::few_kinds, crate::proofs::Sized::few_nodes, crate::proofs::Sized::few_ops))]
fn parts_of(alloc: Global, document: &Document) -> Result<(Setting, CallLists), RunFault>
    requires within { IsWithinDocumentLimits document.now }
    requires normal { IsNormal document.now.text }
    ensures shape { IfOk result (λ parts. (shape_fault document.now ≡ None) × (parts.0 ≡ epoch_setting_of document.now)) }
    ensures calls { IfOk result (λ parts. parts.1 ≡ calls_of document.now) }
    ensures words { IfOk result (λ parts. AllTakeWords parts.1) }
    ensures fault { IfErr result (λ fault. IsFaultOf document.now fault) }
{
    let setting = shaped(Reclamation::Epochs, document)?;
    let scripts = calls_of(alloc, document)?;
    Ok((setting, scripts))
}

/// The plan of a document whose text is in normal form.
fn plan_of_normal(alloc: Global, document: &Document, normal: Normal) -> Result<EpochPlan, RunFault>
    requires within { IsWithinDocumentLimits document.now }
    requires text { normal ≡ document.now.text }
    requires normal { IsNormal document.now.text }
    ensures exact { IsEpochPlanned document.now result }
    ensures words { IfOk result (λ plan. AllTakeWords plan.scripts) }
{
    match parts_of(alloc, document) {
        Ok((setting, scripts)) => Ok(EpochPlan {
            normal,
            setting,
            scripts,
            fuel: document.fuel,
        }),
        Err(fault) => {
            drop(normal);
            Err(fault)
        }
    }
}

/// The plan of a document, whose text is judged first.
fn planned(alloc: Global, document: &Document) -> Result<EpochPlan, RunFault>
    requires { IsWithinDocumentLimits document.now }
    ensures exact { IsEpochPlanned document.now result }
    ensures words { IfOk result (λ plan. AllTakeWords plan.scripts) }
{
    let normal = check(alloc, document.text.copy(alloc)?)?;
    plan_of_normal(alloc, document, normal)
}

/// The plan of a document whose callers run its text as it is, under epochs.
///
/// Its text is within the limits of texts, each of its scripts has at most 100,000 calls, and each turn counts at least 1.
///
/// # Errors
///
/// As those of `plan_of`, with the same places.
pub fn epoch_plan_of(alloc: Global, document: &Document) -> Result<EpochPlan, RunFault>
    requires { IsWithinDocumentLimits document.now }
    ensures exact { IsEpochPlanned document.now result }
    ensures ready { IfOk result (λ plan. IsEpochReady plan) }
{
    planned(alloc, document)
}
