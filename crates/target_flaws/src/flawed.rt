//! The flaws of an instruction of a target, by what was found out about its method and about the operation of
//! the text.

ghost use Rattle.std.specs.Prelude.{◌≡◌, List};
ghost use Rattle.norm_lang.specs.declared.text.Op.{Op};
ghost use Rattle.target_code.specs.declared.target.TargetInstr.{TargetInstr};
ghost use Rattle.target_flaws.specs.FlawAnswers.{IsTargetSite, AreFlawAnswers, uses_by, needs_guard_by, uses_unchecked_by, needs_more_by, guards_kept_by, has_guard_dropped_by, flaw_answers_by};

use crate::facts::TargetFacts;
use crate::guards::{DROPPED, FREE, PUBLISHED};
use crate::needs::Needs;
use crate::uses::{guards, target_commits, target_exchanges, target_reads};
use norm_lang::text::Reg;
use norm_paths::REGISTERS;
use target_code::target::TargetInstr;

/// Whether the instruction uses the register: it reads it, or it hands it over.
fn uses(needs: &Needs, register: Reg, instr: &TargetInstr) -> bool
    ensures { result ≡ uses_by needs.now register instr.now }
{
    target_reads(register, instr) || (target_commits(instr) && needs.hands_over(register))
}

/// Whether the instruction needs the register guarded: it exchanges it, or it leaves it to the wrap-up.
fn needs_guard(needs: &Needs, register: Reg, instr: &TargetInstr) -> bool
    ensures { result ≡ needs_guard_by needs.now register instr.now }
{
    target_exchanges(register, instr) || (target_commits(instr) && needs.keeps(register))
}

fn uses_unchecked(needs: &Needs, facts: &TargetFacts, at: usize, instr: &TargetInstr) -> bool
    ensures { result ≡ uses_unchecked_by needs.now facts.now at instr.now }
{
    REGISTERS.iter().any(|r| uses(needs, *r, instr) && facts.may_be_unchecked(*r, at))
}

/// Whether the guard of a register that the instruction needs guarded may come in a state.
fn needs_more(needs: &Needs, facts: &TargetFacts, at: usize, instr: &TargetInstr, state: u8) -> bool
    ensures { result ≡ needs_more_by needs.now facts.now at instr.now state }
{
    REGISTERS.iter().any(|r| needs_guard(needs, *r, instr) && facts.may_be_guarded(*r, at, state))
}

fn guards_kept(needs: &Needs, instr: &TargetInstr) -> bool
    ensures { result ≡ guards_kept_by needs.now instr.now }
{
    REGISTERS
        .iter()
        .any(|r| guards(*r, instr) && needs.keeps(*r))
}

fn has_guard_dropped(
    needs: &Needs,
    facts: &TargetFacts,
    wrapup: bool,
    at: usize,
    instr: &TargetInstr,
) -> bool
    ensures { result ≡ has_guard_dropped_by needs.now facts.now wrapup at instr.now }
{
    needs_more(needs, facts, at, instr, DROPPED) || (wrapup && guards_kept(needs, instr))
}

/// Which flaws an instruction of a target's method has at its place, where `needs` is what the operation of the
/// text asks, and `facts` are those of the method. The answers are, in order: it uses a register that may be
/// unchecked; of a register that it needs guarded there may be no guard; no check may stand after the last one;
/// that one may be undone, or in a wrap-up it guards a register that is kept.
pub fn flaws(
    needs: &Needs,
    facts: &TargetFacts,
    wrapup: bool,
    at: usize,
    instr: &TargetInstr,
) -> [bool; 4]
    ensures computed { result ≡ flaw_answers_by needs.now facts.now wrapup at instr.now }
    ensures true_of { (source : Op) (code : List TargetInstr) → IsTargetSite source code instr.now needs.now facts.now → AreFlawAnswers source wrapup code at instr.now result }
{
    [
        uses_unchecked(needs, facts, at, instr),
        needs_more(needs, facts, at, instr, FREE),
        needs_more(needs, facts, at, instr, PUBLISHED),
        has_guard_dropped(needs, facts, wrapup, at, instr),
    ]
}
