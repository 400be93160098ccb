//! The lines of an operation: the starts and restarts of its two methods around their blocks.

ghost use Rattle.std.specs.Prelude.{◌≡◌, ◌≤◌, ◌+◌, ◌++◌, Some, length, if◌then◌else◌, IfOk};
ghost use Rattle.caller_parts.specs.Spared.{none_spared, kept_by};
ghost use Rattle.guard_words.specs.Guards.{is_spared};
ghost use Rattle.c_emission.specs.Blocks.{clear_size, copy_lines};
ghost use Rattle.c_emission.specs.Layout.{method_lines};
ghost use Rattle.c_emission.specs.Operations.{seen_lines, first_lines, warned_lines, wrap_up_lines, generator, wrap_up, generator_part, wrap_up_part, operation_lines};
ghost use Rattle.c_emission.specs.Fitting.{IsSmall, ArePlaces};

use crate::blocks::{add_clear, is_spared};
use crate::methods::{Layout, add_method, method_size};
use c_language::lines::Line::{self, Goto, Let, Load};
use c_language::lines::Operand::{Local, Number, Of};
use c_language::lines::Parameter::Own;
use c_language::lines::Place;
use c_language::lines::Value::Is;
use std::alloc::{AllocError, Global};
use target_code::target::{Target, TargetOp};

/// The load of the own warning.
fn add_seen(lines: &mut Vec<Line>) -> Result<(), AllocError>
    ensures { IfOk result (λ _. lines.new.items ≡ lines.old.items ++ seen_lines) }
{
    lines.extend_from_slice(&[Load(20, Place::Warning(Of(Own)))])
}

/// The registers with which a generator starts.
fn add_first(lines: &mut Vec<Line>) -> Result<(), AllocError>
    ensures { IfOk result (λ _. lines.new.items ≡ lines.old.items ++ first_lines) }
{
    lines.extend_from_slice(&[
        Let(0, Is(Local(16))),
        Let(1, Is(Local(17))),
        Let(2, Is(Local(18))),
        Let(3, Is(Local(19))),
        Let(4, Is(Number(0))),
        Let(5, Is(Number(0))),
        Let(6, Is(Number(0))),
        Let(7, Is(Number(0))),
        Let(8, Is(Number(0))),
        Let(9, Is(Number(0))),
        Let(10, Is(Number(0))),
        Let(11, Is(Number(0))),
        Let(12, Is(Number(0))),
        Let(13, Is(Number(0))),
        Let(14, Is(Number(0))),
        Let(15, Is(Number(0))),
    ])?;
    Ok(())
}

/// So many locals from one on become those from another on.
#[tactic(auto, using(crate::proofs::Steps::copy_begin, crate::proofs::Steps::copy_end))]
fn add_copies(lines: &mut Vec<Line>, to: u32, from: u32, count: u32) -> Result<(), AllocError>
    requires to { to ≤ 1000 }
    requires from { from ≤ 1000 }
    requires count { count ≤ 1000 }
    ensures { IfOk result (λ _. lines.new.items ≡ lines.old.items ++ copy_lines to from count) }
{
    for copied in 0..count {
        lines.push(Let(to + copied, Is(Local(from + copied))))?;
    }
    Ok(())
}

/// A restart after a check that failed, from a line on: hazards are cleared but for those that are spared, and the method begins again at a line.
fn add_warned(
    lines: &mut Vec<Line>,
    base: u32,
    spared: [bool; 8],
    again: u32,
) -> Result<(), AllocError>
    requires { base ≤ 100000000 }
    ensures { IfOk result (λ _. lines.new.items ≡ lines.old.items ++ warned_lines base spared again) }
{
    lines.extend_from_slice(&[Let(20, Is(Local(29)))])?;
    add_clear(lines, spared, base + 1)?;
    lines.extend_from_slice(&[Goto(again)])?;
    Ok(())
}

/// The start of a wrap-up that keeps these registers, from a line on.
fn add_wrap_up(lines: &mut Vec<Line>, base: u32, kept: [bool; 8]) -> Result<(), AllocError>
    requires { base ≤ 100000000 }
    ensures { IfOk result (λ _. lines.new.items ≡ lines.old.items ++ wrap_up_lines base kept) }
{
    lines.extend_from_slice(&[Let(7, Is(Local(32)))])?;
    add_copies(lines, 33, 0, 16)?;
    add_clear(lines, kept, base + 17)?;
    add_seen(lines)?;
    add_copies(lines, 0, 33, 16)?;
    Ok(())
}

/// How many lines the clear of a register's hazard has.
fn cleared_size(spared: bool) -> u32
    ensures { result ≡ (if spared then 0 else 3) }
{
    if spared { 0 } else { 3 }
}

/// How many lines a clear has.
fn clear_size(spared: [bool; 8]) -> u32
    ensures same { result ≡ clear_size spared 0 8 }
    ensures few { result ≤ 24 }
{
    let mut size = 0;
    for register in 0..8 {
        let left_out = is_spared(spared, register);
        size += cleared_size(left_out);
    }
    size
}

/// Where the parts of an operation begin.
#[derive(Clone, Copy)]
struct Places {
    generator_warned: u32,
    wrap_up: u32,
    restart: u32,
    wrap_up_first: u32,
    wrap_up_warned: u32,
}

fn find_places(target: &Target, op: &TargetOp, kept: [bool; 8]) -> Places
    requires kept { kept ≡ kept_by (Some op.now) }
    requires generator { IsSmall (length target.now.kinds) target.now.fields op.now.generator }
    requires wrapup { IsSmall (length target.now.kinds) target.now.fields op.now.wrapup }
    ensures same { ArePlaces target.now op.now result }
    ensures generator { result.generator_warned ≤ 2000000 }
    ensures near { result.wrap_up_first ≤ 3000000 }
    ensures last { result.wrap_up_warned ≤ 5000000 }
{
    let kinds = target.kinds.items().len() as u32;
    let fields = target.fields.items();
    let generator_warned = 17 + method_size(kinds, fields, op.generator.items());
    let wrap_up = generator_warned + 26;
    let cleared = clear_size(kept);
    let wrap_up_first = wrap_up + 34 + cleared;
    Places {
        generator_warned,
        wrap_up,
        restart: wrap_up + 18 + cleared,
        wrap_up_first,
        wrap_up_warned: wrap_up_first + method_size(kinds, fields, op.wrapup.items()),
    }
}

/// The blocks of a generator.
fn add_generator(
    lines: &mut Vec<Line>,
    target: &Target,
    op: &TargetOp,
    places: Places,
) -> Result<(), AllocError>
    requires places { ArePlaces target.now op.now places }
    requires small { IsSmall (length target.now.kinds) target.now.fields op.now.generator }
    ensures { IfOk result (λ _. lines.new.items ≡ lines.old.items ++ method_lines (generator target.now op.now)) }
{
    let layout = Layout {
        kinds: target.kinds.items().len() as u32,
        fields: target.fields.items(),
        code: op.generator.items(),
        first: 17,
        warned: places.generator_warned,
        wrap_up: places.wrap_up,
    };
    add_method(lines, &layout)
}

/// The blocks of a wrap-up.
fn add_wrapup(
    lines: &mut Vec<Line>,
    target: &Target,
    op: &TargetOp,
    places: Places,
) -> Result<(), AllocError>
    requires places { ArePlaces target.now op.now places }
    requires near { places.wrap_up_first ≤ 10000000 }
    requires small { IsSmall (length target.now.kinds) target.now.fields op.now.wrapup }
    ensures { IfOk result (λ _. lines.new.items ≡ lines.old.items ++ method_lines (wrap_up target.now op.now)) }
{
    let layout = Layout {
        kinds: target.kinds.items().len() as u32,
        fields: target.fields.items(),
        code: op.wrapup.items(),
        first: places.wrap_up_first,
        warned: places.wrap_up_warned,
        wrap_up: places.wrap_up,
    };
    add_method(lines, &layout)
}

/// The generator of an operation, with its start and its restart.
fn add_generator_part(
    lines: &mut Vec<Line>,
    target: &Target,
    op: &TargetOp,
    places: Places,
) -> Result<(), AllocError>
    requires places { ArePlaces target.now op.now places }
    requires near { places.generator_warned ≤ 100000000 }
    requires small { IsSmall (length target.now.kinds) target.now.fields op.now.generator }
    ensures { IfOk result (λ _. lines.new.items ≡ lines.old.items ++ generator_part target.now op.now) }
{
    add_seen(lines)?;
    add_first(lines)?;
    add_generator(lines, target, op, places)?;
    add_warned(lines, places.generator_warned, [false; 8], 1)?;
    Ok(())
}

/// Its wrap-up, which keeps these registers.
fn add_wrap_up_part(
    lines: &mut Vec<Line>,
    target: &Target,
    op: &TargetOp,
    kept: [bool; 8],
    places: Places,
) -> Result<(), AllocError>
    requires kept { kept ≡ kept_by (Some op.now) }
    requires places { ArePlaces target.now op.now places }
    requires near { places.wrap_up_first ≤ 10000000 }
    requires last { places.wrap_up_warned ≤ 100000000 }
    requires small { IsSmall (length target.now.kinds) target.now.fields op.now.wrapup }
    ensures { IfOk result (λ _. lines.new.items ≡ lines.old.items ++ wrap_up_part target.now op.now) }
{
    add_wrap_up(lines, places.wrap_up, kept)?;
    add_wrapup(lines, target, op, places)?;
    add_warned(lines, places.wrap_up_warned, kept, places.restart)?;
    Ok(())
}

/// The lines of an operation of a target, whose wrap-up keeps these of r0 to r7.
///
/// # Errors
/// Memory ran out.
pub fn operation(
    alloc: Global,
    target: &Target,
    op: &TargetOp,
    kept: [bool; 8],
) -> Result<Vec<Line>, AllocError>
    requires kept { kept ≡ kept_by (Some op.now) }
    requires generator { IsSmall (length target.now.kinds) target.now.fields op.now.generator }
    requires wrapup { IsSmall (length target.now.kinds) target.now.fields op.now.wrapup }
    ensures { IfOk result (λ code. code.items ≡ operation_lines target.now op.now) }
{
    let places = find_places(target, op, kept);
    let mut lines = Vec::new(alloc);
    add_generator_part(&mut lines, target, op, places)?;
    add_wrap_up_part(&mut lines, target, op, kept, places)?;
    Ok(lines)
}
