//! Making the certificate of a document.

ghost use Rattle.std.specs.Prelude.{◌≡◌, Ok, IfOk};
ghost use Rattle.documents.specs.DocumentLimits.{IsWithinDocumentLimits};
ghost use Rattle.script_plans.specs.Plans.{IsPlanned, IsReady};
ghost use Rattle.replay_logs.specs.Logged.{IsLoggedBy};
ghost use Rattle.run_judge.specs.Made.{certificate_limit, making_fault_of, plan_logged, IsMade};

use crate::copying::copied;
use crate::limits::MOST_STEPS;
use certificate_laws::laws::images_are_accepted;
use certificates::Certificate;
use documents::Document;
use norm_check::Normal;
use replay_logs::{LogError, LoggedRun, log_replay};
use script_plans::{Plan, RunFault, plan_of};
use std::alloc::{AllocError, Global};

/// The most steps of a run that is certified.
#[tactic(auto, unfolding(crate::specs::Made::certificate_limit))]
fn certificate_limit() -> u64
    ensures { result ≡ certificate_limit }
{
    MOST_STEPS
}

/// What a run that isn't written down is told as: the numbers 10 and 11, with the steps made.
fn making_fault_of(error: LogError) -> RunFault
    ensures { result ≡ making_fault_of error }
{
    match error {
        LogError::Memory => RunFault::Memory,
        LogError::StepOfNobody { steps } => RunFault::Shape {
            number: 10,
            at: steps,
        },
        LogError::LongReplay { steps } => RunFault::Shape {
            number: 11,
            at: steps,
        },
    }
}

/// The run that the turns of a document give its plan, written down.
fn log_plan(
    alloc: Global,
    document: &Document,
    plan: &Plan,
    normal: &Normal,
) -> Result<LoggedRun, LogError>
    requires ready { IsReady plan.now }
    ensures { IsLoggedBy (plan_logged plan.now) normal.now document.now.schedule result }
{
    log_replay(
        alloc,
        &plan.barred,
        normal,
        &plan.setting,
        plan.scripts.items(),
        plan.fuel,
        certificate_limit(),
        document.schedule.items(),
    )
}

/// A copy of the document, with what was written down.
fn certificate_of(
    alloc: Global,
    document: &Document,
    run: LoggedRun,
) -> Result<Certificate, AllocError>
    ensures { IfOk result (λ c. c ≡ record { document = document.now; events = run.events; replies = run.replies }) }
{
    let LoggedRun { events, replies } = run;
    let document = copied(alloc, document)?;
    Ok(Certificate {
        document,
        events,
        replies,
    })
}

/// The certificate of a document whose plan is made.
fn make_from(
    alloc: Global,
    document: &Document,
    plan: &Plan,
    normal: &Normal,
) -> Result<Certificate, RunFault>
    requires planned { IsPlanned document.now (Ok plan.now) }
    requires ready { IsReady plan.now }
    requires text { normal.now ≡ document.now.text }
    ensures { IsMade document.now result }
{
    plan.barred.kept();
    plan.setting.kept();
    // A law: the judge accepts what a run of a proper text tells the source machine.
    images_are_accepted(&plan.barred, &plan.setting);
    match log_plan(alloc, document, plan, normal) {
        Ok(run) => Ok(certificate_of(alloc, document, run)?),
        Err(error) => Err(making_fault_of(error)),
    }
}

/// The same with the text in normal form of which the plan's target was compiled.
fn make_planned(alloc: Global, document: &Document, plan: &Plan) -> Result<Certificate, RunFault>
    requires planned { IsPlanned document.now (Ok plan.now) }
    requires ready { IsReady plan.now }
    ensures { IsMade document.now result }
{
    make_from(alloc, document, plan, plan.barred.normal())
}

/// The certificate of a document by its plan, which is given up.
fn make_by(alloc: Global, document: &Document, plan: Plan) -> Result<Certificate, RunFault>
    requires planned { IsPlanned document.now (Ok plan) }
    requires ready { IsReady plan }
    ensures { IsMade document.now result }
{
    let made = make_planned(alloc, document, &plan);
    drop(plan);
    made
}

/// The certificate of a document: what a replay of it tells the source machine, and what it replies. The turns of its schedule are made in
/// order, and then each caller goes to its end, in the order of their numbers. Of a proper text, `judge` accepts each.
///
/// Its text is within the limits of texts, each of its scripts has at most 100,000 calls, and each turn counts at least 1.
///
/// # Errors
///
/// As `replay_document`, except that `Shape` with the number 11 comes exactly if 2,000,000 steps were made and another is wanted, with
/// their count. `Memory` if memory runs out, be it before one of these or after any step.
pub fn make_certificate(alloc: Global, document: &Document) -> Result<Certificate, RunFault>
    requires { IsWithinDocumentLimits document.now }
    ensures { IsMade document.now result }
{
    match plan_of(alloc, document) {
        Ok(plan) => make_by(alloc, document, plan),
        Err(fault) => Err(fault),
    }
}
