//! Halls of callers on the words of a table.

ghost use Rattle.std.specs.Prelude.{◌≡◌, true, IfSome};
ghost use Rattle.caller_parts.specs.Calls.{is_call};
ghost use Rattle.script_plans.specs.Plans.{IsReady};
ghost use Rattle.word_runner.specs.Shown.{CameFrom};

use crate::hall::Hall;
use crate::told::{self, add_caller};
use caller_steps::Call;
use oa_core::Entry;
use row_spelling::RowError;
use script_plans::{CallLists, Plan};
use std::alloc::Global;
use std::fmt::Write;
use std::marker::Model;
use word_runner::{Arena, Blank, Caller, Final, Outcome, Rest};

/// An arena, and the scripts of its callers. It is seen as the arena.
#[derive(Drop)]
pub(crate) struct WordHall {
    arena: Arena,
    scripts: CallLists,
}

impl Model for WordHall {
    ghost use Rattle.std.specs.Prelude.{◌≡◌, length, All};
    ghost use Rattle.caller_parts.specs.Calls.{AreCalls};
    ghost use Rattle.word_runner.specs.table_rule.Rule.{callers_of};
    ghost use Rattle.word_runner.specs.Shown.{ArenaShown};

    ghost Value = { ArenaShown };

    ghost view = { λ h. h.arena };

    ghost invariant = { λ h. All (AreCalls h.arena.fixed.target.target) h.scripts × (length h.scripts ≡ callers_of h.arena.fixed) };
}

/// A hall of a plan, and its first blank, with room for so many replies.
pub(crate) fn open(alloc: Global, plan: Plan, room: u32) -> Option<(WordHall, Blank)>
    requires { IsReady plan }
    ensures { IfSome result (λ p. CameFrom p.0 p.1.table p.1.fixed) }
{
    let Plan {
        barred,
        setting,
        scripts,
        fuel: _,
    } = plan;
    match Arena::make(alloc, barred, setting, room) {
        Ok((arena, blank)) => Some((WordHall { arena, scripts }, blank)),
        Err(_) => None,
    }
}

fn add_entry(out: &mut String, entry: &Entry) -> Result<(), RowError> {
    told::add_entry(out, entry.claims(), entry.restarts(), entry.replies())
}

/// The phase and the entries at the end.
fn add_end(out: &mut String, end: &Final) -> Result<(), RowError> {
    let phase = end.phase;
    writeln!(out, "phase {phase}")?;
    for entry in end.entries.items() {
        add_entry(out, entry)?;
    }
    Ok(())
}

impl WordHall {
    pub(crate) fn arena(&self) -> &Arena
        ensures { result.now ≡ self.now }
    {
        &self.arena
    }

    fn call(&self, script: usize, index: usize) -> Option<Call>
        ensures { IfSome result (λ call. is_call self.now.fixed.target.target call ≡ true) }
    {
        let script = self.scripts.items().get(script)?;
        let call = script.items().get(index)?;
        Some(*call)
    }
}

impl Hall for WordHall {
    ghost use Rattle.word_runner.specs.Shown.{CameFrom};

    type Blank = Blank;

    type Caller = Caller;

    type Rest = Rest;

    ghost has_blank = { λ hall blank. CameFrom hall blank.table blank.fixed };

    ghost has_caller = { λ hall caller. CameFrom hall caller.table caller.fixed };

    ghost has_rest = { λ hall rest. CameFrom hall rest.table rest.fixed };

    fn second(&self, alloc: Global, blank: &mut Blank) -> Option<Blank> {
        match blank.split(alloc, &self.arena) {
            Ok(other) => Some(other),
            Err(_) => None,
        }
    }

    fn enter(&self, blank: Blank) -> Option<Caller> {
        match blank.enter(&self.arena) {
            Ok(caller) => Some(caller),
            Err(_) => None,
        }
    }

    fn operate(&self, caller: &mut Caller, index: usize, budget: u64) -> Option<Outcome> {
        if !caller.is_idle() || caller.spare() == 0 || budget == 0 {
            return None;
        }
        let call = self.call(caller.number() as usize, index)?;
        Some(caller.operate(&self.arena, call.op, call.args, budget))
    }

    fn resume(&self, caller: &mut Caller, budget: u64) -> Option<Outcome> {
        if caller.is_idle() || budget == 0 {
            return None;
        }
        Some(caller.resume(&self.arena, budget))
    }

    fn add_caller(&self, out: &mut String, caller: &Caller) -> Result<(), RowError> {
        add_caller(out, caller.number(), caller.is_idle(), caller.spare())
    }

    fn rest_one(&self, caller: Caller) -> Rest {
        caller.rest()
    }

    fn rest_two(&self, one: Caller, two: Caller) -> Rest {
        one.rest().merge(two.rest(), &self.arena)
    }

    fn close(self, rest: Rest, out: &mut String) -> Result<(), RowError> {
        if rest.count() as usize != self.scripts.items().len() {
            drop(rest);
            drop(self);
            return Err(RowError::Wrong);
        }
        let WordHall { arena, scripts: _ } = self;
        add_end(out, &arena.close(rest))
    }
}
