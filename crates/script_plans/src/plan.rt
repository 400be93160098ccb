//! The plan of a document.

ghost use Rattle.std.specs.Prelude.{◌≡◌, ◌≤◌, ◌<◌, ◌^◌, length, IfOk, IfErr};
ghost use Rattle.norm_lang.specs.NormalForm.{IsNormal};
ghost use Rattle.target_code.specs.SecondScheme.{second_scheme};
ghost use Rattle.documents.specs.DocumentLimits.{IsWithinDocumentLimits};
ghost use Rattle.script_plans.specs.declared.fault.RunFault.TheVariants as told;
ghost use Rattle.script_plans.specs.Shapes.{setting_under, shape_fault};
ghost use Rattle.script_plans.specs.Told.{or_fault};
ghost use Rattle.script_plans.specs.Plans.{AllTakeWords, IsPlanned, IsReady};

use crate::calls::calls_of;
use crate::fault::{RunFault, ShapeFault};
use crate::setting::setting_of;
use crate::shape::scripts_fault;
use barrier_check::Barred;
use barrier_compiler::compile;
use caller_parts::{Call, Reclamation, Setting};
use documents::Document;
use norm_check::{Normal, check};
use norm_lang::list::Listed;
use std::alloc::Global;

/// The calls of one caller, in order.
pub type CallList = Listed<Call>;

/// The calls of the callers, by their numbers.
pub type CallLists = Listed<CallList>;

/// What the callers of a document run: the code that its text compiles to, the setting of the row, the calls of each caller, and
/// how many steps may be made for each call.
#[derive(Drop)]
pub struct Plan {
    pub barred: Barred,
    pub setting: Setting,
    pub scripts: CallLists,
    pub fuel: u64,
}

/// The code that a text compiles to, with the text. What the compiler answers is barred, so it isn't verified.
fn barred_of(alloc: Global, normal: Normal) -> Result<Barred, RunFault>
    ensures code { IfOk result (λ barred. barred ≡ record { target = second_scheme normal; source = normal }) }
    ensures memory { IfErr result (λ fault. fault ≡ told.Memory) }
{
    let target = compile(alloc, &normal)?;
    Ok(Barred::compiled(target, normal))
}

/// The setting of a document under a scheme, or what is wrong with its shape.
pub(crate) fn shaped(by: Reclamation, document: &Document) -> Result<Setting, ShapeFault>
    requires kinds { length document.now.text.kinds ≤ 4 }
    requires nodes { length document.now.text.nodes < 2 ^ 32 }
    ensures { result ≡ or_fault (shape_fault document.now) (setting_under by document.now) }
{
    let setting = setting_of(by, document)?;
    match scripts_fault(document.text.ops.items(), document.scripts.items()) {
        None => Ok(setting),
        Some(fault) => Err(fault),
    }
}

/// The plan of a document whose text is in normal form.
#[tactic(auto, using(crate::proofs::Sized::few_kinds, crate::proofs::Sized::few_nodes, crate::proofs::Sized::few_ops))]
fn plan_of_normal(alloc: Global, document: &Document, normal: Normal) -> Result<Plan, RunFault>
    requires within { IsWithinDocumentLimits document.now }
    requires text { normal ≡ document.now.text }
    requires normal { IsNormal document.now.text }
    ensures exact { IsPlanned document.now result }
    ensures words { IfOk result (λ plan. AllTakeWords plan.scripts) }
{
    let setting = shaped(Reclamation::Optimistic, document)?;
    let scripts = calls_of(alloc, document)?;
    let barred = barred_of(alloc, normal)?;
    Ok(Plan {
        barred,
        setting,
        scripts,
        fuel: document.fuel,
    })
}

/// The plan of a document, whose text is judged first.
fn planned(alloc: Global, document: &Document) -> Result<Plan, RunFault>
    requires { IsWithinDocumentLimits document.now }
    ensures exact { IsPlanned document.now result }
    ensures words { IfOk result (λ plan. AllTakeWords plan.scripts) }
{
    let normal = check(alloc, document.text.copy(alloc)?)?;
    plan_of_normal(alloc, document, normal)
}

/// The plan of a document.
///
/// Its text is within the limits of texts, each of its scripts has at most 100,000 calls, and each turn counts at least 1.
///
/// # Errors
///
/// `Refused` exactly if the text isn't in normal form, with the first rule that is broken. Else `Shape` exactly if its
/// shape is refused, with the first fault: see `ShapeFault`. `Memory` if memory runs out, be it before one of these.
pub fn plan_of(alloc: Global, document: &Document) -> Result<Plan, RunFault>
    requires { IsWithinDocumentLimits document.now }
    ensures exact { IsPlanned document.now result }
    ensures ready { IfOk result (λ plan. IsReady plan) }
{
    planned(alloc, document)
}
