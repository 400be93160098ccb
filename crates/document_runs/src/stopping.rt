//! The turn at which the replay of a document stops.

ghost use Rattle.std.specs.Prelude.{Ok, IfOk};
ghost use Rattle.documents.specs.DocumentLimits.{IsWithinDocumentLimits};
ghost use Rattle.script_plans.specs.Plans.{IsPlanned, IsReady};
ghost use Rattle.document_runs.specs.Stops.{AreWholeTurns, PlanStopsAfter};

use documents::Document;
use script_plans::{Plan, RunFault, plan_of};
use std::alloc::{AllocError, Global};

/// How many turns of a document's schedule the replay of a plan makes whole.
fn plan_turns(alloc: Global, plan: &Plan, document: &Document) -> Result<usize, AllocError>
    requires { IsReady plan.now }
    ensures { IfOk result (λ whole. PlanStopsAfter plan.now document.now.schedule whole) }
{
    oa_core::whole_turns(
        alloc,
        &plan.barred,
        &plan.setting,
        plan.scripts.items(),
        plan.fuel,
        document.schedule.items(),
    )
}

/// The same of a document's own plan.
fn planned_turns(alloc: Global, document: &Document, plan: &Plan) -> Result<usize, RunFault>
    requires planned { IsPlanned document.now (Ok plan.now) }
    requires ready { IsReady plan.now }
    ensures { AreWholeTurns document.now result }
{
    match plan_turns(alloc, plan, document) {
        Ok(whole) => Ok(whole),
        Err(_) => Err(RunFault::Memory),
    }
}

/// The same by its plan, which is given up.
fn turns_by(alloc: Global, document: &Document, plan: Plan) -> Result<usize, RunFault>
    requires planned { IsPlanned document.now (Ok plan) }
    requires ready { IsReady plan }
    ensures { AreWholeTurns document.now result }
{
    let found = planned_turns(alloc, document, &plan);
    drop(plan);
    found
}

/// How many turns of its schedule the replay of a document makes whole before the one at which it stops; all of them, if it stops at
/// none.
///
/// # Errors
///
/// As `plan_of`. `Memory` if memory runs out.
pub fn whole_turns(alloc: Global, document: &Document) -> Result<usize, RunFault>
    requires { IsWithinDocumentLimits document.now }
    ensures { AreWholeTurns document.now result }
{
    match plan_of(alloc, document) {
        Ok(plan) => turns_by(alloc, document, plan),
        Err(fault) => Err(fault),
    }
}
