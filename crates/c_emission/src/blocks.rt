//! The blocks of single accesses, clears of hazards, and copies of locals. `specs/Blocks.antt` says what each local is.

ghost use Rattle.std.specs.Prelude.{◌≡◌, ◌≤◌, ◌+◌, [], ◌++◌, if◌then◌else◌, IfOk};
ghost use Rattle.guard_words.specs.Guards.{is_spared};
ghost use Rattle.caller_parts.specs.Operands.{register_number};
ghost use Rattle.c_emission.specs.Blocks.{local_of, slot_line, root_block, pick_block, load_block, put_block, check_block, guard_block, clear_line, clear_lines};

use c_language::lines::Line::{self, If, Let, Load, Store};
use c_language::lines::Operand::{Local, Number, Of};
use c_language::lines::Parameter::Own;
use c_language::lines::Place;
use c_language::lines::Test::{Differ, Equal};
use c_language::lines::Value::{Is, Over, Rest};
use norm_lang::text::Reg;
use std::alloc::AllocError;

/// The local of a register.
pub(crate) fn local_of(register: Reg) -> u32
    ensures { result ≡ local_of register }
{
    match register {
        Reg::Num(r) => r as u32,
        Reg::Ref(r) => 8 + r as u32,
    }
}

fn register_number(register: Reg) -> u32
    ensures same { result ≡ register_number register }
    ensures small { result ≤ 255 }
{
    match register {
        Reg::Num(r) => r as u32,
        Reg::Ref(r) => r as u32,
    }
}

/// The slot that a register names, into local 30.
pub(crate) fn slot_line(a: Reg) -> Line
    ensures { result ≡ slot_line a }
{
    Let(30, Over(Local(local_of(a)), Number(2)))
}

pub(crate) fn add_root(lines: &mut Vec<Line>, d: Reg, x: u16) -> Result<(), AllocError>
    ensures { IfOk result (λ _. lines.new.items ≡ lines.old.items ++ root_block d x) }
{
    lines.extend_from_slice(&[Load(local_of(d), Place::Root(x as u32, Number(0)))])
}

pub(crate) fn add_pick(
    lines: &mut Vec<Line>,
    d: Reg,
    x: u16,
    count: u16,
    a: Reg,
) -> Result<(), AllocError>
    ensures { IfOk result (λ _. lines.new.items ≡ lines.old.items ++ pick_block d x count a) }
{
    lines.extend_from_slice(&[
        Let(31, Rest(Local(local_of(a)), Number(count as u64))),
        Load(local_of(d), Place::Root(x as u32, Local(31))),
    ])
}

pub(crate) fn add_load(
    lines: &mut Vec<Line>,
    d: Reg,
    a: Reg,
    kind: u32,
    at: u32,
) -> Result<(), AllocError>
    ensures { IfOk result (λ _. lines.new.items ≡ lines.old.items ++ load_block d a kind at) }
{
    lines.extend_from_slice(&[
        slot_line(a),
        Load(local_of(d), Place::Field(kind, Local(30), at)),
    ])
}

pub(crate) fn add_put(
    lines: &mut Vec<Line>,
    a: Reg,
    kind: u32,
    at: u32,
    b: Reg,
) -> Result<(), AllocError>
    ensures { IfOk result (λ _. lines.new.items ≡ lines.old.items ++ put_block a kind at b) }
{
    lines.extend_from_slice(&[
        slot_line(a),
        Store(Place::Field(kind, Local(30), at), Local(local_of(b))),
    ])
}

pub(crate) fn add_check(lines: &mut Vec<Line>, warned: u32) -> Result<(), AllocError>
    ensures { IfOk result (λ _. lines.new.items ≡ lines.old.items ++ check_block warned) }
{
    lines.extend_from_slice(&[
        Load(29, Place::Warning(Of(Own))),
        If(Differ(Local(29), Local(20)), warned),
    ])
}

pub(crate) fn add_guard(lines: &mut Vec<Line>, register: Reg) -> Result<(), AllocError>
    ensures { IfOk result (λ _. lines.new.items ≡ lines.old.items ++ guard_block register) }
{
    let number = register_number(register);
    lines.extend_from_slice(&[
        slot_line(register),
        Store(Place::Hazard(Of(Own), Number(number as u64)), Local(30)),
        Let(21 + number, Is(Local(30))),
    ])
}

/// The clear of one register's hazard, at a line.
fn add_clear_of(lines: &mut Vec<Line>, base: u32, register: u32) -> Result<(), AllocError>
    requires near { base ≤ 4000000000 }
    requires register { register ≤ 7 }
    ensures { IfOk result (λ _. lines.new.items ≡ lines.old.items ++ clear_line base register) }
{
    lines.extend_from_slice(&[
        If(Equal(Local(21 + register), Number(0)), base + 3),
        Store(Place::Hazard(Of(Own), Number(register as u64)), Number(0)),
        Let(21 + register, Is(Number(0))),
    ])
}

pub(crate) fn is_spared(spared: [bool; 8], register: usize) -> bool
    ensures { result ≡ is_spared spared register }
{
    spared.get(register).copied().unwrap_or(false)
}

/// The clear of one register's hazard, unless it is spared; the line after it.
fn add_clear_unless(
    lines: &mut Vec<Line>,
    spared: bool,
    base: u32,
    register: u32,
) -> Result<u32, AllocError>
    requires near { base ≤ 4000000000 }
    requires register { register ≤ 7 }
    ensures line { IfOk result (λ next. next ≡ (if spared then base else base + 3)) }
    ensures added { IfOk result (λ _. lines.new.items ≡ lines.old.items ++ (if spared then [] else clear_line base register)) }
{
    if spared {
        return Ok(base);
    }
    add_clear_of(lines, base, register)?;
    Ok(base + 3)
}

/// The clear of all hazards but those of spared registers, at a line.
pub(crate) fn add_clear(
    lines: &mut Vec<Line>,
    spared: [bool; 8],
    base: u32,
) -> Result<(), AllocError>
    requires { base ≤ 3000000000 }
    ensures { IfOk result (λ _. lines.new.items ≡ lines.old.items ++ clear_lines spared base 0 8) }
{
    let mut line = base;
    for register in 0..8 {
        let left_out = is_spared(spared, register);
        line = add_clear_unless(lines, left_out, line, register as u32)?;
    }
    Ok(())
}
