//! Small machines that see what the instructions of a target's method do to registers.

ghost use Rattle.std.specs.Prelude.{◌≡◌, ◌<◌, ◌^◌, ◌∷◌, [], length, IfOk};
ghost use Rattle.target_flaws.specs.Machines.{target_fork_of, machine_after, moves_from};
ghost use Rattle.target_flaws.specs.Found.{SeesAll};

use crate::{checks, guards};
use norm_lang::Fork;
use norm_paths::moves::{fork_of, fork_to_one};
use path_facts::{Facts, Move};
use std::alloc::{AllocError, Global};
use target_code::target::TargetInstr;

/// What a machine sees.
#[derive(Clone, Copy)]
pub(crate) enum Machine {
    /// Whether the number and the reference with this number are clean.
    Checks(u8),
    /// What became of the last guard of the reference with this number.
    Guards(u8),
}

/// The state in which every machine begins: both registers are clean, or there is no guard.
const BEGUN: u8 = 0;

/// Where control goes on from an instruction at a place of a method with so many.
fn target_fork_of(count: usize, instr: &TargetInstr, at: usize) -> Fork
    requires few { count < 2 ^ 32 }
    requires there { at < count }
    ensures { result ≡ target_fork_of count instr.now at }
{
    match instr {
        TargetInstr::Plain(plain) => fork_of(count, plain, at),
        TargetInstr::Check | TargetInstr::Guard(_) => fork_to_one(count, at + 1),
    }
}

/// A machine's states after an instruction, for each state before it.
fn states_after(machine: Machine, instr: &TargetInstr) -> [u8; 4]
    ensures { result ≡ machine_after machine instr.now 0 ∷ machine_after machine instr.now 1 ∷ machine_after machine instr.now 2 ∷ machine_after machine instr.now 3 ∷ [] }
{
    match machine {
        Machine::Checks(number) => checks::states_after(number, instr),
        Machine::Guards(number) => guards::states_after(number, instr),
    }
}

/// All instructions for one machine.
fn moves_of(alloc: Global, code: &[TargetInstr], machine: Machine) -> Result<Vec<Move>, AllocError>
    requires few { length code.now < 2 ^ 30 }
    ensures { IfOk result (λ moves. moves.items ≡ moves_from (machine_after machine) (length code.now) 0 code.now) }
{
    let mut moves = Vec::new(alloc);
    for (at, instr) in code.iter().enumerate() {
        moves.push(Move {
            fork: target_fork_of(code.len(), instr, at),
            after: states_after(machine, instr),
        })?;
    }
    Ok(moves)
}

/// What one machine sees of a method.
pub(crate) fn facts_of(
    alloc: Global,
    code: &[TargetInstr],
    machine: Machine,
) -> Result<Facts, AllocError>
    requires some { 0 < length code.now }
    requires few { length code.now < 2 ^ 30 }
    ensures { IfOk result (λ facts. SeesAll (machine_after machine) code.now facts) }
{
    let moves = moves_of(alloc, code, machine)?;
    let facts = Facts::of_moves(alloc, &moves, BEGUN)?;
    Ok(facts)
}
