//! The blocks of a `new` and of the ends of an operation.

ghost use Rattle.std.specs.Prelude.{◌≡◌, ◌≤◌, [], ◌∷◌, ◌++◌, IfOk};
ghost use Rattle.c_emission.specs.Ends.{clear_block, cradle_block, field_lines, reference_line, number_reply, new_block, return_block, none_block, again_block};

use crate::blocks::{add_clear, local_of};
use c_language::lines::Line::{self, Call, Get, Goto, If, Keep, Let, Reply, Store};
use c_language::lines::Operand::{Local, Number, Of};
use c_language::lines::Parameter::LastPhase;
use c_language::lines::Test::{Differ, Equal};
use c_language::lines::Value::Times;
use c_language::lines::{Answer, Place};
use norm_lang::text::Reg;
use std::alloc::AllocError;

/// A clear of all hazards, from a line on.
fn add_clear_all(lines: &mut Vec<Line>, base: u32) -> Result<(), AllocError>
    requires { base ≤ 2000000000 }
    ensures { IfOk result (λ _. lines.new.items ≡ lines.old.items ++ clear_block base) }
{
    add_clear(lines, [false; 8], base)
}

/// The slot of a cradle, from a line on: that of a claim of a kind if the cradle is empty.
fn add_cradle(lines: &mut Vec<Line>, base: u32, kind: u32, cradle: u32) -> Result<(), AllocError>
    requires { base ≤ 3000000000 }
    ensures { IfOk result (λ _. lines.new.items ≡ lines.old.items ++ cradle_block base kind cradle) }
{
    lines.extend_from_slice(&[
        Get(30, cradle),
        If(Differ(Local(30), Number(0)), base + 8),
        Call(30, kind),
        If(Equal(Local(30), Number(0)), base + 6),
        If(
            Differ(Local(30), Number(18_446_744_073_709_551_615)),
            base + 7,
        ),
        Reply(Answer::Phases, Of(LastPhase)),
        Reply(Answer::Full, Number(0)),
        Keep(cradle, Local(30)),
    ])
}

/// A store of 0 to each of so many fields of the node in local 30.
#[tactic(auto, using(crate::proofs::Steps::fields_begin, crate::proofs::Steps::field_goes, crate::proofs::Steps::fields_end))]
fn add_fields(lines: &mut Vec<Line>, kind: u32, count: u32) -> Result<(), AllocError>
    ensures { IfOk result (λ _. lines.new.items ≡ lines.old.items ++ field_lines kind 0 count) }
{
    for at in 0..count {
        lines.push(Store(Place::Field(kind, Local(30), at), Number(0)))?;
    }
    Ok(())
}

/// A node to make: the register that gets it, its kind, its cradle and how many fields it has.
#[derive(Clone, Copy)]
pub(crate) struct Fresh {
    pub register: Reg,
    pub kind: u32,
    pub cradle: u32,
    pub count: u32,
}

/// The register of a `new` becomes the reference to the slot in local 30.
fn add_reference(lines: &mut Vec<Line>, d: Reg) -> Result<(), AllocError>
    ensures { IfOk result (λ _. lines.new.items ≡ lines.old.items ++ reference_line d ∷ []) }
{
    lines.extend_from_slice(&[Let(local_of(d), Times(Local(30), Number(2)))])
}

/// A `new`, from a line on.
pub(crate) fn add_new(lines: &mut Vec<Line>, base: u32, fresh: Fresh) -> Result<(), AllocError>
    requires { base ≤ 2000000000 }
    ensures { IfOk result (λ _. lines.new.items ≡ lines.old.items ++ new_block base fresh.register fresh.kind fresh.cradle fresh.count) }
{
    add_clear_all(lines, base)?;
    add_cradle(lines, base + 24, fresh.kind, fresh.cradle)?;
    add_fields(lines, fresh.kind, fresh.count)?;
    add_reference(lines, fresh.register)?;
    Ok(())
}

fn add_number_reply(lines: &mut Vec<Line>, a: Reg) -> Result<(), AllocError>
    ensures { IfOk result (λ _. lines.new.items ≡ lines.old.items ++ number_reply a ∷ []) }
{
    lines.extend_from_slice(&[Reply(Answer::Number, Local(local_of(a)))])
}

/// The end with the number in a register, from a line on.
pub(crate) fn add_return(lines: &mut Vec<Line>, base: u32, a: Reg) -> Result<(), AllocError>
    requires { base ≤ 2000000000 }
    ensures { IfOk result (λ _. lines.new.items ≡ lines.old.items ++ return_block base a) }
{
    add_clear_all(lines, base)?;
    add_number_reply(lines, a)?;
    Ok(())
}

/// The end without a number, from a line on.
pub(crate) fn add_none(lines: &mut Vec<Line>, base: u32) -> Result<(), AllocError>
    requires { base ≤ 2000000000 }
    ensures { IfOk result (λ _. lines.new.items ≡ lines.old.items ++ none_block base) }
{
    add_clear_all(lines, base)?;
    lines.extend_from_slice(&[Reply(Answer::Nothing, Number(0))])?;
    Ok(())
}

/// The operation begins again at its first line, from a line on.
pub(crate) fn add_again(lines: &mut Vec<Line>, base: u32) -> Result<(), AllocError>
    requires { base ≤ 2000000000 }
    ensures { IfOk result (λ _. lines.new.items ≡ lines.old.items ++ again_block base 0) }
{
    add_clear_all(lines, base)?;
    lines.extend_from_slice(&[Goto(0)])?;
    Ok(())
}
