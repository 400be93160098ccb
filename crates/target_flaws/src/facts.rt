//! What is known of the registers at each instruction of a target's method.

ghost use Rattle.std.specs.Prelude.{◌≡◌, ◌<◌, ◌^◌, length, IfOk, slice_index_or, []};
ghost use Rattle.path_facts.specs.Facts.{comes_in_by};
ghost use Rattle.target_flaws.specs.Found.{AreAllChecks, AreAllGuards, AreTargetFacts, may_be_unchecked_by, may_be_guarded_by};

use crate::checks::{BOTH_UNCHECKED, NUMBER_UNCHECKED, REFERENCE_UNCHECKED};
use crate::machines::{Machine, facts_of};
use norm_lang::text::Reg;
use path_facts::Facts;
use std::alloc::{AllocError, Global};
use std::marker::Model;
use target_code::target::TargetInstr;

/// For each register and each instruction of a method, whether the register may come there unchecked, and for
/// references in which states its guard may come there.
#[derive(Drop)]
pub struct TargetFacts {
    checks: Vec<Facts>,
    guards: Vec<Facts>,
}

impl Model for TargetFacts {
    ghost use Rattle.target_flaws.specs.Found.{TargetFound};

    ghost Value = { TargetFound };

    ghost view = { λ t. record { checks = t.checks.items; guards = t.guards.items } };
}

impl TargetFacts {
    /// The facts of a method with an instruction, and with fewer than 2^30. The cost grows with the count of
    /// instructions alone.
    ///
    /// # Errors
    /// Memory ran out.
    pub fn of_code(alloc: Global, code: &[TargetInstr]) -> Result<TargetFacts, AllocError>
        requires some { 0 < length code.now }
        requires few { length code.now < 2 ^ 30 }
        ensures { IfOk result (λ facts. AreTargetFacts code.now facts) }
    {
        let checks = check_facts(alloc, code)?;
        let guards = guard_facts(alloc, code)?;
        Ok(TargetFacts { checks, guards })
    }

    /// Whether the register may come unchecked to the instruction at `at`.
    pub(crate) fn may_be_unchecked(&self, register: Reg, at: usize) -> bool
        ensures { result ≡ may_be_unchecked_by self.now register at }
    {
        match register {
            Reg::Num(number) => {
                comes_in(&self.checks, number, at, NUMBER_UNCHECKED)
                    || comes_in(&self.checks, number, at, BOTH_UNCHECKED)
            }
            Reg::Ref(number) => {
                comes_in(&self.checks, number, at, REFERENCE_UNCHECKED)
                    || comes_in(&self.checks, number, at, BOTH_UNCHECKED)
            }
        }
    }

    /// Whether the register's guard may come in a state to the instruction at `at`. A number has no guard.
    pub(crate) fn may_be_guarded(&self, register: Reg, at: usize, state: u8) -> bool
        ensures { result ≡ may_be_guarded_by self.now register at state }
    {
        match register {
            Reg::Num(_) => false,
            Reg::Ref(number) => comes_in(&self.guards, number, at, state),
        }
    }
}

fn check_facts(alloc: Global, code: &[TargetInstr]) -> Result<Vec<Facts>, AllocError>
    requires some { 0 < length code.now }
    requires few { length code.now < 2 ^ 30 }
    ensures { IfOk result (λ all. AreAllChecks code.now all.items) }
{
    let mut all = Vec::new(alloc);
    for number in 0..8u8 {
        all.push(facts_of(alloc, code, Machine::Checks(number))?)?;
    }
    Ok(all)
}

fn guard_facts(alloc: Global, code: &[TargetInstr]) -> Result<Vec<Facts>, AllocError>
    requires some { 0 < length code.now }
    requires few { length code.now < 2 ^ 30 }
    ensures { IfOk result (λ all. AreAllGuards code.now all.items) }
{
    let mut all = Vec::new(alloc);
    for number in 0..8u8 {
        all.push(facts_of(alloc, code, Machine::Guards(number))?)?;
    }
    Ok(all)
}

fn comes_in(machines: &[Facts], number: u8, at: usize, state: u8) -> bool
    ensures { result ≡ comes_in_by (slice_index_or machines.now number []) at state }
{
    match machines.get(number as usize) {
        None => false,
        Some(facts) => facts.comes_in(at, state),
    }
}
