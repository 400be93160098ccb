//! The blocks of instructions: guards and checks, with the instruction among them.

ghost use Rattle.std.specs.Prelude.{◌≡◌, ◌≤◌, ◌++◌, ◌∷◌, [], length, map, IfOk, OnOk};
ghost use Rattle.std.specs.List.{flat_map};
ghost use Rattle.target_code.specs.declared.target.TargetInstr.TheVariants.{Guard};
ghost use Rattle.target_code.specs.Erasing.{redirected};
ghost use Rattle.target_code.specs.Blocks.{check_if, barrier};
ghost use Rattle.target_code.specs.SecondScheme.{second_marks};
ghost use Rattle.barrier_compiler.specs.Building.{block_by, starts_from, start_of, AreNear, relocated};

use crate::due::{Checks, Notes};
use crate::guards::guarded;
use norm_lang::duplicate::Duplicate;
use norm_lang::text::{Instr, Reg};
use std::alloc::{AllocError, Global};
use target_code::target::{TargetCode, TargetInstr};

/// The blocks of a method, whose jumps still lead to instructions of the source, and where each block begins.
#[derive(Drop)]
pub(crate) struct Blocks {
    pub code: TargetCode,
    pub starts: Vec<usize>,
}

fn put_guards(code: &mut TargetCode, registers: &[Reg]) -> Result<(), AllocError>
    ensures { IfOk result (λ _. code.new ≡ code.old ++ map Guard registers.now) }
{
    for register in registers {
        code.push(TargetInstr::Guard(*register))?;
    }
    Ok(())
}

fn put_check(code: &mut TargetCode, wanted: bool) -> Result<(), AllocError>
    ensures { IfOk result (λ _. code.new ≡ code.old ++ check_if wanted) }
{
    if wanted {
        code.push(TargetInstr::Check)?;
    }
    Ok(())
}

/// Adds guards and a check after them. If nothing is guarded, it adds a check only if one is wanted.
fn put_barrier(code: &mut TargetCode, wanted: bool, registers: &[Reg]) -> Result<(), AllocError>
    ensures { IfOk result (λ _. code.new ≡ code.old ++ barrier wanted registers.now) }
{
    if registers.is_empty() {
        return put_check(code, wanted);
    }
    put_guards(code, registers)?;
    code.push(TargetInstr::Check)
}

/// Adds the block of an instruction.
fn put_block(
    alloc: Global,
    code: &mut TargetCode,
    kept: &[Reg],
    instr: &Instr,
    checks: Checks,
) -> Result<(), AllocError>
    ensures { IfOk result (λ _. code.new ≡ code.old ++ block_by kept.now (record { instr = instr.now; before = checks.before; after = checks.after })) }
{
    let registers = guarded(alloc, kept, instr)?;
    put_barrier(code, checks.before, &registers)?;
    code.push(TargetInstr::Plain(instr.duplicate(alloc)?))?;
    put_check(code, checks.after)
}

/// The blocks of a method's instructions.
pub(crate) fn blocks_of(alloc: Global, kept: &[Reg], instrs: &[Instr]) -> Result<Blocks, AllocError>
    ensures code { IfOk result (λ blocks. blocks.code ≡ flat_map (block_by kept.now) (second_marks instrs.now)) }
    ensures starts { IfOk result (λ blocks. blocks.starts.items ≡ starts_from kept.now 0 (second_marks instrs.now)) }
{
    let mut code = TargetCode::empty(alloc);
    let mut starts = Vec::new(alloc);
    let mut notes = Notes::none(alloc);
    for (at, instr) in instrs.iter().enumerate() {
        let checks = notes.checks(instrs, at, instr)?;
        starts.push(code.items().len())?;
        put_block(alloc, &mut code, kept, instr, checks)?;
    }
    Ok(Blocks { code, starts })
}

fn start_of(starts: &[usize], end: usize, at: u16) -> u16
    requires { start_of starts.now end at ≤ 65535 }
    ensures { result ≡ start_of starts.now end at }
{
    starts.get(at as usize).copied().unwrap_or(end) as u16
}

/// An instruction whose jump leads to the block of the instruction that it named.
fn redirected(
    alloc: Global,
    starts: &[usize],
    end: usize,
    instr: &Instr,
) -> Result<Instr, AllocError>
    requires { AreNear starts.now end }
    ensures { IfOk result (λ i. i ≡ redirected (start_of starts.now end) instr.now) }
{
    Ok(match instr {
        Instr::Cas(entry, l) => Instr::Cas(*entry, start_of(starts, end, *l)),
        Instr::Jump(l) => Instr::Jump(start_of(starts, end, *l)),
        Instr::IfEq(a, b, l) => Instr::IfEq(*a, *b, start_of(starts, end, *l)),
        Instr::IfLess(a, b, l) => Instr::IfLess(*a, *b, start_of(starts, end, *l)),
        Instr::IfMarked(a, l) => Instr::IfMarked(*a, start_of(starts, end, *l)),
        _ => instr.duplicate(alloc)?,
    })
}

fn relocated(
    alloc: Global,
    starts: &[usize],
    end: usize,
    instr: &TargetInstr,
) -> Result<TargetInstr, AllocError>
    requires { AreNear starts.now end }
    ensures { IfOk result (λ i. i ≡ relocated (start_of starts.now end) instr.now) }
{
    Ok(match instr {
        TargetInstr::Plain(instr) => TargetInstr::Plain(redirected(alloc, starts, end, instr)?),
        TargetInstr::Check => TargetInstr::Check,
        TargetInstr::Guard(register) => TargetInstr::Guard(*register),
    })
}

/// The blocks with jumps that lead to blocks.
pub(crate) fn linked(alloc: Global, blocks: &Blocks) -> Result<TargetCode, AllocError>
    requires { AreNear blocks.now.starts.items (length blocks.now.code) }
    ensures { IfOk result (λ code. code ≡ map (relocated (start_of blocks.now.starts.items (length blocks.now.code))) blocks.now.code) }
{
    let instrs = blocks.code.items();
    let mut code = TargetCode::empty(alloc);
    for instr in instrs {
        code.push(relocated(alloc, &blocks.starts, instrs.len(), instr)?)?;
    }
    Ok(code)
}
