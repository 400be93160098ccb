//! The lines of a claim. `specs/ClaimLines.antt` has them with their numbers, and says what each local is.

ghost use Rattle.std.specs.Prelude.{◌≡◌, ◌≤◌, ◌+◌, ◌-◌, ◌++◌, IfOk};
ghost use Rattle.c_runtime.specs.KindLines.{kind_lines, kind_jump};
ghost use Rattle.c_runtime.specs.ClaimLines.{claim_lines, look_part, look_lines, take_lines, sweep_part, phase_lines, warning_lines, hazard_lines};
ghost use Rattle.c_runtime.specs.ClaimLines.{recycle_part, status_lines, ready_lines, push_line, push_lines, top_lines};

use c_language::lines::Line::{self, Exchange, Goto, If, IfNoted, Let, Load, Note, Return, Store};
use c_language::lines::Operand::{Local, Number, Of};
use c_language::lines::Parameter::{Callers, FirstSlot, LastPhase, Slots, Tops};
use c_language::lines::Place;
use c_language::lines::Test::{Differ, Equal, Less};
use c_language::lines::Value::{Is, Minus, Over, Plus, Rest, Times};
use std::alloc::{AllocError, Global};

/// The lines of a claim of a slot of a kind, of so many kinds.
///
/// # Errors
/// Memory ran out.
pub fn claim(alloc: Global, kind: u32, kinds: u32) -> Result<Vec<Line>, AllocError>
    ensures { IfOk result (λ code. code.items ≡ claim_lines kind kinds) }
{
    let mut lines = Vec::new(alloc);
    add_look_part(&mut lines, kind)?;
    add_sweep_part(&mut lines)?;
    add_recycle_part(&mut lines)?;
    add_kinds(&mut lines, kinds)?;
    Ok(lines)
}

/// A look.
fn add_look_part(lines: &mut Vec<Line>, kind: u32) -> Result<(), AllocError>
    ensures { IfOk result (λ _. lines.new.items ≡ lines.old.items ++ look_part kind) }
{
    add_look(lines, kind)?;
    add_take(lines)?;
    Ok(())
}

/// A sweep, up to its statuses.
fn add_sweep_part(lines: &mut Vec<Line>) -> Result<(), AllocError>
    ensures { IfOk result (λ _. lines.new.items ≡ lines.old.items ++ sweep_part) }
{
    add_phase(lines)?;
    add_warnings(lines)?;
    add_hazards(lines)?;
    Ok(())
}

/// A sweep from its statuses on.
fn add_recycle_part(lines: &mut Vec<Line>) -> Result<(), AllocError>
    ensures { IfOk result (λ _. lines.new.items ≡ lines.old.items ++ recycle_part) }
{
    add_statuses(lines)?;
    add_ready(lines)?;
    add_push(lines)?;
    add_top(lines)?;
    Ok(())
}

/// The look, up to its exchange.
fn add_look(lines: &mut Vec<Line>, kind: u32) -> Result<(), AllocError>
    ensures { IfOk result (λ _. lines.new.items ≡ lines.old.items ++ look_lines kind) }
{
    let head = Place::Head(Number(kind as u64));
    lines.extend_from_slice(&[
        Let(0, Is(Number(0))),
        Load(1, head),
        Let(2, Rest(Local(1), Of(Tops))),
        If(Equal(Local(2), Number(0)), 14),
        Load(3, Place::Link(Local(2))),
        Let(4, Minus(Local(1), Local(2))),
        Let(3, Plus(Local(4), Local(3))),
        Exchange(4, head, Local(1), Local(3)),
    ])
}

/// What follows the exchange, and what does if no slot is on top.
fn add_take(lines: &mut Vec<Line>) -> Result<(), AllocError>
    ensures { IfOk result (λ _. lines.new.items ≡ lines.old.items ++ take_lines) }
{
    lines.extend_from_slice(&[
        If(Differ(Local(4), Local(1)), 1),
        Let(4, Over(Local(1), Of(Tops))),
        Let(4, Times(Local(4), Number(4))),
        Let(5, Plus(Local(4), Number(1))),
        Store(Place::Status(Local(2)), Local(5)),
        Return(Local(2)),
        If(Less(Local(0), Number(2)), 16),
        Return(Number(0)),
    ])
}

/// The phase, raised by one.
fn add_phase(lines: &mut Vec<Line>) -> Result<(), AllocError>
    ensures { IfOk result (λ _. lines.new.items ≡ lines.old.items ++ phase_lines) }
{
    lines.extend_from_slice(&[
        Load(11, Place::Phase),
        If(Differ(Local(11), Of(LastPhase)), 19),
        Return(Number(18_446_744_073_709_551_615)),
        Let(6, Plus(Local(11), Number(1))),
        Exchange(4, Place::Phase, Local(11), Local(6)),
        Let(7, Is(Number(0))),
    ])
}

/// Each caller's warning, raised to the phase.
fn add_warnings(lines: &mut Vec<Line>) -> Result<(), AllocError>
    ensures { IfOk result (λ _. lines.new.items ≡ lines.old.items ++ warning_lines) }
{
    lines.extend_from_slice(&[
        Load(4, Place::Warning(Local(7))),
        If(Less(Local(4), Local(6)), 25),
        Goto(27),
        Exchange(5, Place::Warning(Local(7)), Local(4), Local(6)),
        If(Differ(Local(5), Local(4)), 22),
        Let(7, Plus(Local(7), Number(1))),
        If(Less(Local(7), Of(Callers)), 22),
        Let(7, Is(Number(0))),
    ])
}

/// Each caller's hazards, noted.
fn add_hazards(lines: &mut Vec<Line>) -> Result<(), AllocError>
    ensures { IfOk result (λ _. lines.new.items ≡ lines.old.items ++ hazard_lines) }
{
    lines.extend_from_slice(&[
        Let(8, Is(Number(0))),
        Load(4, Place::Hazard(Local(7), Local(8))),
        Note(Local(4)),
        Let(8, Plus(Local(8), Number(1))),
        If(Less(Local(8), Number(8)), 31),
        Let(7, Plus(Local(7), Number(1))),
        If(Less(Local(7), Of(Callers)), 30),
        Let(2, Is(Of(Slots))),
    ])
}

/// Each slot's status, from the last slot down: what was retired before the phase and isn't noted is recycled.
fn add_statuses(lines: &mut Vec<Line>) -> Result<(), AllocError>
    ensures { IfOk result (λ _. lines.new.items ≡ lines.old.items ++ status_lines) }
{
    lines.extend_from_slice(&[
        Load(9, Place::Status(Local(2))),
        IfNoted(Local(2), 48),
        Let(5, Rest(Local(9), Number(4))),
        If(Differ(Local(5), Number(2)), 48),
        Let(10, Over(Local(9), Number(4))),
        If(Less(Local(10), Local(6)), 45),
        Goto(48),
        Let(5, Times(Local(6), Number(4))),
    ])
}

/// The exchange that makes a slot ready, and the next lower slot.
fn add_ready(lines: &mut Vec<Line>) -> Result<(), AllocError>
    ensures { IfOk result (λ _. lines.new.items ≡ lines.old.items ++ ready_lines) }
{
    lines.extend_from_slice(&[
        Exchange(4, Place::Status(Local(2)), Local(9), Local(5)),
        If(Equal(Local(4), Local(9)), 65),
        If(Less(Number(1), Local(2)), 50),
        Goto(52),
        Let(2, Minus(Local(2), Number(1))),
        Goto(38),
        Let(0, Plus(Local(0), Number(1))),
        Goto(1),
    ])
}

/// The push of a slot onto the chain of its kind: the head, the link, and the greater of two phases.
fn add_push(lines: &mut Vec<Line>) -> Result<(), AllocError>
    ensures { IfOk result (λ _. lines.new.items ≡ lines.old.items ++ push_lines) }
{
    lines.extend_from_slice(&[
        Load(1, Place::Head(Local(12))),
        Let(3, Rest(Local(1), Of(Tops))),
        Store(Place::Link(Local(2)), Local(3)),
        Let(10, Over(Local(1), Of(Tops))),
        If(Less(Local(6), Local(10)), 60),
        Let(10, Is(Local(6))),
    ])
}

/// The exchange of the head.
fn add_top(lines: &mut Vec<Line>) -> Result<(), AllocError>
    ensures { IfOk result (λ _. lines.new.items ≡ lines.old.items ++ top_lines) }
{
    lines.extend_from_slice(&[
        Let(10, Times(Local(10), Of(Tops))),
        Let(3, Plus(Local(10), Local(2))),
        Exchange(4, Place::Head(Local(12)), Local(1), Local(3)),
        If(Equal(Local(4), Local(1)), 48),
        Goto(54),
    ])
}

/// The kind of a slot: one test for each kind but the last.
#[tactic(auto, using(crate::proofs::KindSteps::kinds_begin, crate::proofs::KindSteps::kinds_end))]
fn add_kinds(lines: &mut Vec<Line>, kinds: u32) -> Result<(), AllocError>
    ensures { IfOk result (λ _. lines.new.items ≡ lines.old.items ++ kind_lines push_line 0 kinds) }
{
    for kind in 0..kinds {
        lines.extend_from_slice(&[Let(12, Is(Number(kind as u64))), kind_jump(kind, kinds)])?;
    }
    Ok(())
}

/// Goes on at the push if a slot is of a kind: if it stands before the first slot of the next one, or if the kind is the last.
fn kind_jump(kind: u32, kinds: u32) -> Line
    requires { kind + 1 ≤ kinds }
    ensures { result ≡ kind_jump push_line kind (kinds - (kind + 1)) }
{
    if kind + 1 < kinds {
        If(Less(Local(2), Of(FirstSlot(kind + 1))), 54)
    } else {
        Goto(54)
    }
}
