//! The first register that is at fault.

ghost use Rattle.std.specs.Prelude.{◌≡◌, ◌<◌, ◌^◌, None, Some, IfOk, MatchOption, find, slice_get};
ghost use Rattle.std.specs.List.{position};
ghost use Rattle.norm_lang.specs.Kept.{code_of};
ghost use Rattle.norm_lang.specs.Limits.{IsWithinLimits};
ghost use Rattle.norm_paths.specs.Found.{IsOpWithin, all_registers};
ghost use Rattle.norm_paths.specs.OpFound.{found_of};
ghost use Rattle.rule_registers.specs.Blamed.{is_blamed};
ghost use Rattle.rule_registers.specs.First.{IsFirstAtFault};

use crate::blaming::Site;
use kind_rules::op_kinds;
use norm_check::Refusal;
use norm_lang::text::{Instr, Op, Reg, Text};
use norm_paths::{OpFacts, REGISTERS, code_of};
use std::alloc::{AllocError, Global};

/// The place of the first of these registers that is at fault by a rule.
fn first_place(site: &Site, rule: u8, registers: &[Reg]) -> Option<usize>
    requires { site.now.at < 2 ^ 26 }
    ensures { result ≡ position (is_blamed rule site.now.text.now.fields site.now.text.now.roots site.now.wrapup site.now.at site.now.instr.now (found_of site.now.facts.now site.now.wrapup) site.now.facts.now.kept site.now.kinds.now) registers.now }
{
    registers
        .iter()
        .position(|register| site.is_blamed(rule, *register))
}

fn register_at(registers: &[Reg], place: usize) -> Option<Reg>
    ensures { result ≡ slice_get registers.now place }
{
    registers.get(place).copied()
}

/// The first of these registers that is at fault by a rule.
#[tactic(auto, using(crate::proofs::Finding::place_none))]
fn first_of(site: &Site, rule: u8, registers: &[Reg]) -> Option<Reg>
    requires { site.now.at < 2 ^ 26 }
    ensures { result ≡ find (is_blamed rule site.now.text.now.fields site.now.text.now.roots site.now.wrapup site.now.at site.now.instr.now (found_of site.now.facts.now site.now.wrapup) site.now.facts.now.kept site.now.kinds.now) registers.now }
{
    match first_place(site, rule, registers) {
        None => None,
        Some(place) => register_at(registers, place),
    }
}

/// The first register that is at fault by a rule.
fn first_blamed(site: &Site, rule: u8) -> Option<Reg>
    requires { site.now.at < 2 ^ 26 }
    ensures { result ≡ find (is_blamed rule site.now.text.now.fields site.now.text.now.roots site.now.wrapup site.now.at site.now.instr.now (found_of site.now.facts.now site.now.wrapup) site.now.facts.now.kept site.now.kinds.now) all_registers }
{
    first_of(site, rule, &REGISTERS)
}

/// An operation of a text, by its number.
fn op_at(text: &Text, number: u8) -> Option<&Op>
    ensures { MatchOption result (slice_get text.now.ops number ≡ None) (λ op. slice_get text.now.ops number ≡ Some op.now) }
{
    text.ops.items().get(number as usize)
}

/// An instruction of an operation, by its place in one of the methods.
fn instr_at(op: &Op, wrapup: bool, at: u16) -> Option<&Instr>
    ensures { MatchOption result (slice_get (code_of op.now wrapup) at ≡ None) (λ instr. slice_get (code_of op.now wrapup) at ≡ Some instr.now) }
{
    code_of(op, wrapup).get(at as usize)
}

/// The same for an instruction of an operation.
fn blamed_at(
    alloc: Global,
    text: &Text,
    op: &Op,
    instr: &Instr,
    refusal: Refusal,
) -> Result<Option<Reg>, AllocError>
    requires limits { IsWithinLimits text.now }
    requires within { IsOpWithin op.now }
    requires numbered { slice_get text.now.ops refusal.op ≡ Some op.now }
    requires stands { slice_get (code_of op.now refusal.wrapup) refusal.at ≡ Some instr.now }
    ensures { IfOk result (IsFirstAtFault text.now refusal) }
{
    let facts = OpFacts::of_op(alloc, op)?;
    let kinds = op_kinds(alloc, text, refusal.op, op)?;
    let site = Site {
        text,
        facts: &facts,
        kinds: &kinds,
        wrapup: refusal.wrapup,
        at: refusal.at as usize,
        instr,
    };
    Ok(first_blamed(&site, refusal.rule))
}

/// The same for an operation; none if it hasn't the instruction.
fn blamed_in(
    alloc: Global,
    text: &Text,
    op: &Op,
    refusal: Refusal,
) -> Result<Option<Reg>, AllocError>
    requires limits { IsWithinLimits text.now }
    requires numbered { slice_get text.now.ops refusal.op ≡ Some op.now }
    ensures { IfOk result (IsFirstAtFault text.now refusal) }
{
    match instr_at(op, refusal.wrapup, refusal.at) {
        None => Ok(None),
        Some(instr) => blamed_at(alloc, text, op, instr, refusal),
    }
}

/// The first register at fault, in the order n0 to n7 and r0 to r7, at the instruction of a refusal and by its rule; none if the rule
/// blames no register there. It costs as much as checking the operation by that rule.
///
/// # Errors
/// `AllocError` if memory runs out.
pub fn register_at_fault(
    alloc: Global,
    text: &Text,
    refusal: Refusal,
) -> Result<Option<Reg>, AllocError>
    requires { IsWithinLimits text.now }
    ensures { IfOk result (IsFirstAtFault text.now refusal) }
{
    match op_at(text, refusal.op) {
        None => Ok(None),
        Some(op) => blamed_in(alloc, text, op, refusal),
    }
}
