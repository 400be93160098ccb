//! The rules that look at one instruction: N1, N2 and N12, at one register.

ghost use Rattle.std.specs.Prelude.{◌≡◌};
ghost use Rattle.std.specs.List.{list_any};
ghost use Rattle.rule_registers.specs.AtFault.{is_number_at, is_reference_at, is_unlike_at, is_of_unlike_pair, is_wrong_object, is_wrong_operand, is_misplaced, is_computed_with, is_stranger_of, is_retired_wrongly, is_put_into, is_put, is_shown};

use kind_rules::kinds::{field_kind, place_kind, root_kind};
use norm_check::kinds::{are_of_two_kinds, holds_number, is_unlike};
use norm_check::retired::retires_stranger;
use norm_lang::text::{CasEntry, FieldDecl, FieldKind, Instr, Place, Reg, RootDecl};
use norm_paths::uses::{holds_reference, same_register};

fn is_number_at(register: Reg, at: Reg) -> bool
    ensures { result ≡ is_number_at register at }
{
    same_register(register, at) && holds_number(at)
}

fn is_reference_at(register: Reg, at: Reg) -> bool
    ensures { result ≡ is_reference_at register at }
{
    same_register(register, at) && holds_reference(at)
}

fn is_unlike_at(kind: Option<FieldKind>, register: Reg, at: Reg) -> bool
    ensures { result ≡ is_unlike_at kind register at }
{
    same_register(register, at) && is_unlike(kind, at)
}

fn is_of_unlike_pair(register: Reg, a: Reg, b: Reg) -> bool
    ensures { result ≡ is_of_unlike_pair register a b }
{
    are_of_two_kinds(a, b) && (same_register(register, a) || same_register(register, b))
}

fn is_wrong_object(register: Reg, place: Place) -> bool
    ensures { result ≡ is_wrong_object register place }
{
    match place {
        Place::Root(_) => false,
        Place::Field(object, _) => is_number_at(register, object),
    }
}

fn is_wrong_operand(
    fields: &[FieldDecl],
    roots: &[RootDecl],
    register: Reg,
    entry: &CasEntry,
) -> bool
    ensures { result ≡ is_wrong_operand fields.now roots.now register entry.now }
{
    let kind = place_kind(fields, roots, entry.place);
    is_wrong_object(register, entry.place)
        || (is_unlike_at(kind, register, entry.expected)
            || is_unlike_at(kind, register, entry.replacement))
}

fn is_wrong_in_some(
    fields: &[FieldDecl],
    roots: &[RootDecl],
    register: Reg,
    entries: &[CasEntry],
) -> bool
    ensures { result ≡ list_any (is_wrong_operand fields.now roots.now register) entries.now }
{
    entries
        .iter()
        .any(|entry| is_wrong_operand(fields, roots, register, entry))
}

/// N1: whether the register is of another kind than its place in the instruction needs.
pub(crate) fn is_misplaced(
    fields: &[FieldDecl],
    roots: &[RootDecl],
    register: Reg,
    instr: &Instr,
) -> bool
    ensures { result ≡ is_misplaced fields.now roots.now register instr.now }
{
    match instr {
        Instr::Set(d, _) | Instr::Add(d, _, _) | Instr::Sub(d, _, _) | Instr::Rem(d, _, _) =>
            is_reference_at(register, *d),
        Instr::Mov(a, b) | Instr::IfEq(a, b, _) => is_of_unlike_pair(register, *a, *b),
        Instr::Mark(d, a) | Instr::Unmark(d, a) => is_number_at(register, *d)
            || is_number_at(register, *a),
        Instr::Null(d) | Instr::New(d, _) | Instr::IfMarked(d, _) => is_number_at(register, *d),
        Instr::LoadRoot(d, x) | Instr::LoadPick(d, x, _, _) => is_unlike_at(
            root_kind(roots, *x),
            register,
            *d,
        ),
        Instr::LoadField(d, object, f) | Instr::Put(object, f, d) => is_number_at(register, *object)
            || is_unlike_at(field_kind(fields, *f), register, *d),
        Instr::Cas(entry, _) => is_wrong_operand(fields, roots, register, entry),
        Instr::Commit(entries) => is_wrong_in_some(fields, roots, register, entries.items()),
        Instr::Return(a) => is_reference_at(register, *a),
        Instr::Jump(_) | Instr::IfLess(_, _, _) | Instr::ReturnNone | Instr::Again => false,
    }
}

/// N2: whether the register is a reference that the instruction computes with.
pub(crate) fn is_computed_with(register: Reg, instr: &Instr) -> bool
    ensures { result ≡ is_computed_with register instr.now }
{
    match instr {
        Instr::Add(_, a, b) | Instr::Sub(_, a, b) | Instr::IfLess(a, b, _) => is_reference_at(
            register, *a,
        ) || is_reference_at(register, *b),
        Instr::Rem(_, a, _) | Instr::LoadPick(_, _, _, a) => is_reference_at(register, *a),
        _ => false,
    }
}

fn is_stranger_of(register: Reg, entry: &CasEntry) -> bool
    ensures { result ≡ is_stranger_of register entry.now }
{
    match entry.retire {
        None => false,
        Some(retired) => same_register(register, retired) && retires_stranger(entry),
    }
}

fn is_stranger_of_some(register: Reg, entries: &[CasEntry]) -> bool
    ensures { result ≡ list_any (is_stranger_of register) entries.now }
{
    entries.iter().any(|entry| is_stranger_of(register, entry))
}

/// N12: whether the instruction retires the register, and mustn't.
pub(crate) fn is_retired_wrongly(register: Reg, instr: &Instr) -> bool
    ensures { result ≡ is_retired_wrongly register instr.now }
{
    match instr {
        Instr::Cas(entry, _) => is_stranger_of(register, entry),
        Instr::Commit(entries) => is_stranger_of_some(register, entries.items()),
        _ => false,
    }
}

/// Whether the register is the object of a put.
pub(crate) fn is_put_into(register: Reg, instr: &Instr) -> bool
    ensures { result ≡ is_put_into register instr.now }
{
    match instr {
        Instr::Put(object, _, _) => same_register(register, *object),
        _ => false,
    }
}

/// Whether it is the value of a put.
pub(crate) fn is_put(register: Reg, instr: &Instr) -> bool
    ensures { result ≡ is_put register instr.now }
{
    match instr {
        Instr::Put(_, _, value) => same_register(register, *value),
        _ => false,
    }
}

/// Whether it is the new value of an auxiliary exchange.
pub(crate) fn is_shown(register: Reg, instr: &Instr) -> bool
    ensures { result ≡ is_shown register instr.now }
{
    match instr {
        Instr::Cas(entry, _) => same_register(register, entry.replacement),
        _ => false,
    }
}
