//! What instructions of targets do with registers.

ghost use Rattle.std.specs.Prelude.{◌≡◌};
ghost use Rattle.std.specs.List.{list_any};
ghost use Rattle.norm_lang.specs.RegisterUse.{same_register, operands_of};
ghost use Rattle.target_code.specs.Paths.{target_reads};
ghost use Rattle.target_code.specs.Flaws.{target_commits, guards, exchanged, target_exchanges};

use norm_lang::text::{CasEntry, Instr, Reg};
use norm_paths::uses::{is_commit, is_operand, reads, same_register};
use target_code::target::TargetInstr;

/// Whether the instruction reads a register. A check and a guard read none.
pub(crate) fn target_reads(register: Reg, instr: &TargetInstr) -> bool
    ensures { result ≡ target_reads register instr.now }
{
    match instr {
        TargetInstr::Plain(plain) => reads(register, plain),
        TargetInstr::Check | TargetInstr::Guard(_) => false,
    }
}

/// Whether the instruction is a commit.
pub(crate) fn target_commits(instr: &TargetInstr) -> bool
    ensures { result ≡ target_commits instr.now }
{
    match instr {
        TargetInstr::Plain(plain) => is_commit(plain),
        TargetInstr::Check | TargetInstr::Guard(_) => false,
    }
}

/// Whether the instruction is the guard of a register.
pub(crate) fn guards(register: Reg, instr: &TargetInstr) -> bool
    ensures { result ≡ guards register instr.now }
{
    match instr {
        TargetInstr::Guard(guarded) => same_register(register, *guarded),
        TargetInstr::Plain(_) | TargetInstr::Check => false,
    }
}

fn is_some_operand(register: Reg, entries: &[CasEntry]) -> bool
    ensures { result ≡ list_any (λ entry. list_any (same_register register) (operands_of entry)) entries.now }
{
    entries.iter().any(|entry| is_operand(register, entry))
}

#[tactic(auto, using(crate::proofs::Judging::operand_of_some))]
fn exchanges_plainly(register: Reg, instr: &Instr) -> bool
    ensures { result ≡ list_any (same_register register) (exchanged instr.now) }
{
    match instr {
        Instr::Cas(entry, _) => is_operand(register, entry),
        Instr::Commit(entries) => is_some_operand(register, entries.items()),
        _ => false,
    }
}

/// Whether a register is the object, the expected or the new operand of one of the instruction's exchanges.
pub(crate) fn target_exchanges(register: Reg, instr: &TargetInstr) -> bool
    ensures { result ≡ target_exchanges register instr.now }
{
    match instr {
        TargetInstr::Plain(plain) => exchanges_plainly(register, plain),
        TargetInstr::Check | TargetInstr::Guard(_) => false,
    }
}
