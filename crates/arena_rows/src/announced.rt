//! Two callers of a text that is run as it is, on an epoch arena, call by call and step by step.

ghost use Rattle.std.specs.Prelude.{◌≡◌, true, IfSome};
ghost use Rattle.caller_parts.specs.Calls.{is_call};
ghost use Rattle.script_plans.specs.EpochPlans.{IsEpochReady};
ghost use Rattle.word_runner.specs.Shown.{CameFrom};

use crate::budgets::budgets;
use crate::hall::Hall;
use crate::plans::epoch_planned;
use crate::told::{self, add_caller};
use caller_steps::Call;
use epoch_core::EpochEntry;
use epoch_core::setting::copy_of;
use epoch_runner::{EpochArena, EpochBlank, EpochCaller, EpochFinal, EpochOutcome, EpochRest};
use row_spelling::RowError;
use script_plans::{CallLists, EpochPlan};
use std::alloc::Global;
use std::fmt::Write;
use std::marker::Model;
use word_runner::Outcome;

/// An epoch arena, and the scripts of its callers. It is seen as the arena.
#[derive(Drop)]
struct EpochHall {
    arena: EpochArena,
    scripts: CallLists,
}

impl Model for EpochHall {
    ghost use Rattle.std.specs.Prelude.{◌≡◌, length, All};
    ghost use Rattle.caller_parts.specs.Calls.{AreCalls};
    ghost use Rattle.word_runner.specs.table_rule.Rule.{callers_of};
    ghost use Rattle.word_runner.specs.Shown.{ArenaShown};

    ghost Value = { ArenaShown };

    ghost view = { λ h. h.arena };

    ghost invariant = { λ h. All (AreCalls h.arena.fixed.target.target) h.scripts × (length h.scripts ≡ callers_of h.arena.fixed) };
}

/// A hall of a plan, and its first blank, with room for so many replies.
fn open(alloc: Global, plan: EpochPlan, room: u32) -> Option<(EpochHall, EpochBlank)>
    requires { IsEpochReady plan }
    ensures { IfSome result (λ p. CameFrom p.0 p.1.table p.1.fixed) }
{
    let EpochPlan {
        normal,
        setting,
        scripts,
        fuel: _,
    } = plan;
    setting.kept();
    let shape = copy_of(setting.shape());
    let first = setting.first_phase();
    let last = setting.last_phase();
    match EpochArena::make(alloc, normal, shape, first, last, room) {
        Ok((arena, blank)) => Some((EpochHall { arena, scripts }, blank)),
        Err(_) => None,
    }
}

/// The same outcome, as an arena of `word_runner` tells it.
fn as_told(outcome: EpochOutcome) -> Outcome {
    match outcome {
        EpochOutcome::Replied(number) => Outcome::Replied(number),
        EpochOutcome::Full => Outcome::Full,
        EpochOutcome::PhasesOver(phase) => Outcome::PhasesOver(phase),
        EpochOutcome::Spent => Outcome::Spent,
    }
}

fn add_entry(out: &mut String, entry: &EpochEntry) -> Result<(), RowError> {
    told::add_entry(out, entry.claims(), entry.restarts(), entry.replies())
}

/// The phase and the entries at the end.
fn add_end(out: &mut String, end: &EpochFinal) -> Result<(), RowError> {
    let phase = end.phase;
    writeln!(out, "phase {phase}")?;
    for entry in end.entries.items() {
        add_entry(out, entry)?;
    }
    Ok(())
}

impl EpochHall {
    fn call(&self, script: usize, index: usize) -> Option<Call>
        ensures { IfSome result (λ call. is_call self.now.fixed.target.target call ≡ true) }
    {
        let script = self.scripts.items().get(script)?;
        let call = script.items().get(index)?;
        Some(*call)
    }
}

impl Hall for EpochHall {
    ghost use Rattle.word_runner.specs.Shown.{CameFrom};

    type Blank = EpochBlank;

    type Caller = EpochCaller;

    type Rest = EpochRest;

    ghost has_blank = { λ hall blank. CameFrom hall blank.table blank.fixed };

    ghost has_caller = { λ hall caller. CameFrom hall caller.table caller.fixed };

    ghost has_rest = { λ hall rest. CameFrom hall rest.table rest.fixed };

    fn second(&self, alloc: Global, blank: &mut EpochBlank) -> Option<EpochBlank> {
        match blank.split(alloc, &self.arena) {
            Ok(other) => Some(other),
            Err(_) => None,
        }
    }

    fn enter(&self, blank: EpochBlank) -> Option<EpochCaller> {
        match blank.enter(&self.arena) {
            Ok(caller) => Some(caller),
            Err(_) => None,
        }
    }

    fn operate(&self, caller: &mut EpochCaller, index: usize, budget: u64) -> Option<Outcome> {
        if !caller.is_idle() || caller.spare() == 0 || budget == 0 {
            return None;
        }
        let call = self.call(caller.number() as usize, index)?;
        let outcome = caller.operate(&self.arena, call.op, call.args, budget);
        Some(as_told(outcome))
    }

    fn resume(&self, caller: &mut EpochCaller, budget: u64) -> Option<Outcome> {
        if caller.is_idle() || budget == 0 {
            return None;
        }
        Some(as_told(caller.resume(&self.arena, budget)))
    }

    fn add_caller(&self, out: &mut String, caller: &EpochCaller) -> Result<(), RowError> {
        add_caller(out, caller.number(), caller.is_idle(), caller.spare())
    }

    fn rest_one(&self, caller: EpochCaller) -> EpochRest {
        caller.rest()
    }

    fn rest_two(&self, one: EpochCaller, two: EpochCaller) -> EpochRest {
        one.rest().merge(two.rest(), &self.arena)
    }

    fn close(self, rest: EpochRest, out: &mut String) -> Result<(), RowError> {
        if rest.count() as usize != self.scripts.items().len() {
            drop(rest);
            drop(self);
            return Err(RowError::Wrong);
        }
        let EpochHall { arena, scripts: _ } = self;
        add_end(out, &arena.close(rest))
    }
}

/// The row of two callers of a document under epochs, each with room for so many replies.
pub(crate) fn announced(
    alloc: Global,
    room: u32,
    moves: &str,
    bytes: &[u8],
    out: &mut String,
) -> Result<(), RowError> {
    let Some(plan) = epoch_planned(alloc, bytes) else {
        return Err(RowError::Wrong);
    };
    match open(alloc, plan, room) {
        Some((hall, blank)) => budgets(alloc, hall, blank, "together", moves, out),
        None => Err(RowError::Wrong),
    }
}
