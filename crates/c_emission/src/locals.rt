//! The blocks of local instructions.

ghost use Rattle.std.specs.Prelude.{◌≡◌, ◌++◌, IfOk};
ghost use Rattle.c_emission.specs.Locals.{set_block, mov_block, add_block, sub_block, rem_block, null_block, unmark_block, mark_block, equal_block, less_block, marked_block};

use crate::blocks::local_of;
use c_language::lines::Line::{self, If, Let};
use c_language::lines::Operand::{Local, Number};
use c_language::lines::Test::{Equal, Less};
use c_language::lines::Value::{Is, Minus, Plus, Rest};
use norm_lang::text::Reg;
use std::alloc::AllocError;

pub(crate) fn add_set(lines: &mut Vec<Line>, d: Reg, n: u64) -> Result<(), AllocError>
    ensures { IfOk result (λ _. lines.new.items ≡ lines.old.items ++ set_block d n) }
{
    lines.extend_from_slice(&[Let(local_of(d), Is(Number(n)))])
}

pub(crate) fn add_mov(lines: &mut Vec<Line>, d: Reg, a: Reg) -> Result<(), AllocError>
    ensures { IfOk result (λ _. lines.new.items ≡ lines.old.items ++ mov_block d a) }
{
    lines.extend_from_slice(&[Let(local_of(d), Is(Local(local_of(a))))])
}

pub(crate) fn add_add(lines: &mut Vec<Line>, d: Reg, a: Reg, b: Reg) -> Result<(), AllocError>
    ensures { IfOk result (λ _. lines.new.items ≡ lines.old.items ++ add_block d a b) }
{
    lines.extend_from_slice(&[Let(local_of(d), Plus(Local(local_of(a)), Local(local_of(b))))])
}

pub(crate) fn add_sub(lines: &mut Vec<Line>, d: Reg, a: Reg, b: Reg) -> Result<(), AllocError>
    ensures { IfOk result (λ _. lines.new.items ≡ lines.old.items ++ sub_block d a b) }
{
    lines.extend_from_slice(&[Let(local_of(d), Minus(Local(local_of(a)), Local(local_of(b))))])
}

pub(crate) fn add_rem(lines: &mut Vec<Line>, d: Reg, a: Reg, n: u64) -> Result<(), AllocError>
    ensures { IfOk result (λ _. lines.new.items ≡ lines.old.items ++ rem_block d a n) }
{
    lines.extend_from_slice(&[Let(local_of(d), Rest(Local(local_of(a)), Number(n)))])
}

pub(crate) fn add_null(lines: &mut Vec<Line>, d: Reg) -> Result<(), AllocError>
    ensures { IfOk result (λ _. lines.new.items ≡ lines.old.items ++ null_block d) }
{
    lines.extend_from_slice(&[Let(local_of(d), Is(Number(0)))])
}

pub(crate) fn add_unmark(lines: &mut Vec<Line>, d: Reg, a: Reg) -> Result<(), AllocError>
    ensures { IfOk result (λ _. lines.new.items ≡ lines.old.items ++ unmark_block d a) }
{
    lines.extend_from_slice(&[
        Let(31, Rest(Local(local_of(a)), Number(2))),
        Let(local_of(d), Minus(Local(local_of(a)), Local(31))),
    ])
}

pub(crate) fn add_mark(lines: &mut Vec<Line>, d: Reg, a: Reg) -> Result<(), AllocError>
    ensures { IfOk result (λ _. lines.new.items ≡ lines.old.items ++ mark_block d a) }
{
    lines.extend_from_slice(&[
        Let(31, Rest(Local(local_of(a)), Number(2))),
        Let(31, Minus(Local(local_of(a)), Local(31))),
        Let(local_of(d), Plus(Local(31), Number(1))),
    ])
}

pub(crate) fn add_equal(lines: &mut Vec<Line>, a: Reg, b: Reg, to: u32) -> Result<(), AllocError>
    ensures { IfOk result (λ _. lines.new.items ≡ lines.old.items ++ equal_block a b to) }
{
    lines.extend_from_slice(&[If(Equal(Local(local_of(a)), Local(local_of(b))), to)])
}

pub(crate) fn add_less(lines: &mut Vec<Line>, a: Reg, b: Reg, to: u32) -> Result<(), AllocError>
    ensures { IfOk result (λ _. lines.new.items ≡ lines.old.items ++ less_block a b to) }
{
    lines.extend_from_slice(&[If(Less(Local(local_of(a)), Local(local_of(b))), to)])
}

pub(crate) fn add_marked(lines: &mut Vec<Line>, a: Reg, to: u32) -> Result<(), AllocError>
    ensures { IfOk result (λ _. lines.new.items ≡ lines.old.items ++ marked_block a to) }
{
    lines.extend_from_slice(&[
        Let(31, Rest(Local(local_of(a)), Number(2))),
        If(Equal(Local(31), Number(1)), to),
    ])
}
