//! The blocks of exchanges, and of what follows those that succeed.

ghost use Rattle.std.specs.Prelude.{◌≡◌, ◌≤◌, ◌*◌, ◌++◌, length, unwrap_or, IfOk};
ghost use Rattle.norm_lang.specs.KindFields.{owner_of, place_of};
ghost use Rattle.c_emission.specs.Exchanges.{kind_of_field, root_exchange, field_exchange, place_exchange, retirement_lines, retire_lines, emptied_line, emptied_lines, published_lines, cas_block, entry_block, commit_block, list_end};

use crate::blocks::{local_of, slot_line};
use crate::sizes::{entry_size, place_size, published_size};
use c_language::lines::Line::{self, Exchange, Get, Goto, If, Keep, Let, Load, Store};
use c_language::lines::Operand::{Local, Number};
use c_language::lines::Place;
use c_language::lines::Test::{Differ, Equal};
use c_language::lines::Value::{Is, Plus, Times};
use norm_lang::fields::place_of;
use norm_lang::text::{CasEntry, FieldDecl, Place as TextPlace, Reg};
use std::alloc::AllocError;

/// The kind of the nodes that have a field.
pub(crate) fn kind_of_field(fields: &[FieldDecl], field: u8) -> u32
    ensures { result ≡ kind_of_field fields.now field }
{
    match fields.get(field as usize) {
        None => 0,
        Some(declared) => declared.owner as u32,
    }
}

/// The place of a field among those of its kind.
#[tactic(auto, using(caller_parts::proofs::Tables::place_small))]
pub(crate) fn place_of_field(fields: &[FieldDecl], field: u8) -> u32
    ensures { result ≡ place_of fields.now field }
{
    place_of(fields, field) as u32
}

/// An exchange of a root, which goes on at a line if it fails.
fn add_root_exchange(
    lines: &mut Vec<Line>,
    x: u16,
    expected: Reg,
    replacement: Reg,
    failed: u32,
) -> Result<(), AllocError>
    ensures { IfOk result (λ _. lines.new.items ≡ lines.old.items ++ root_exchange x expected replacement failed) }
{
    let found = Local(local_of(expected));
    lines.extend_from_slice(&[
        Exchange(
            29,
            Place::Root(x as u32, Number(0)),
            found,
            Local(local_of(replacement)),
        ),
        If(Differ(Local(29), found), failed),
    ])
}

/// A field of a kind's node: the register that names the node, the kind, and the field's place.
#[derive(Clone, Copy)]
struct NodeField {
    object: Reg,
    kind: u32,
    at: u32,
}

/// An exchange, from a line on, of a field, which goes on at another line if it fails. Null's field is loaded instead.
fn add_field_exchange(
    lines: &mut Vec<Line>,
    base: u32,
    field: NodeField,
    expected: Reg,
    replacement: Reg,
    failed: u32,
) -> Result<(), AllocError>
    requires { base ≤ 3000000000 }
    ensures { IfOk result (λ _. lines.new.items ≡ lines.old.items ++ field_exchange base field.object field.kind field.at expected replacement failed) }
{
    let found = Local(local_of(expected));
    lines.extend_from_slice(&[
        slot_line(field.object),
        If(Differ(Local(30), Number(0)), base + 4),
        Load(29, Place::Field(field.kind, Number(0), field.at)),
        Goto(failed),
        Exchange(
            29,
            Place::Field(field.kind, Local(30), field.at),
            found,
            Local(local_of(replacement)),
        ),
        If(Differ(Local(29), found), failed),
    ])
}

fn add_exchange(
    lines: &mut Vec<Line>,
    fields: &[FieldDecl],
    base: u32,
    exchange: CasEntry,
    failed: u32,
) -> Result<(), AllocError>
    requires { base ≤ 3000000000 }
    ensures { IfOk result (λ _. lines.new.items ≡ lines.old.items ++ place_exchange fields.now base exchange.place exchange.expected exchange.replacement failed) }
{
    match exchange.place {
        TextPlace::Root(x) => {
            add_root_exchange(lines, x, exchange.expected, exchange.replacement, failed)
        }
        TextPlace::Field(object, f) => {
            let field = NodeField {
                object,
                kind: kind_of_field(fields, f),
                at: place_of_field(fields, f),
            };
            add_field_exchange(
                lines,
                base,
                field,
                exchange.expected,
                exchange.replacement,
                failed,
            )
        }
    }
}

/// The retirement of the node in a register, from a line on.
fn add_retirement(lines: &mut Vec<Line>, base: u32, register: Reg) -> Result<(), AllocError>
    requires { base ≤ 3000000000 }
    ensures { IfOk result (λ _. lines.new.items ≡ lines.old.items ++ retirement_lines base register) }
{
    lines.extend_from_slice(&[
        slot_line(register),
        If(Equal(Local(30), Number(0)), base + 6),
        Load(31, Place::Phase),
        Let(31, Times(Local(31), Number(4))),
        Let(31, Plus(Local(31), Number(2))),
        Store(Place::Status(Local(30)), Local(31)),
    ])
}

fn add_retire(lines: &mut Vec<Line>, base: u32, retire: Option<Reg>) -> Result<(), AllocError>
    requires { base ≤ 3000000000 }
    ensures { IfOk result (λ _. lines.new.items ≡ lines.old.items ++ retire_lines base retire) }
{
    match retire {
        None => Ok(()),
        Some(Reg::Num(_)) => Ok(()),
        Some(Reg::Ref(r)) => add_retirement(lines, base, Reg::Ref(r)),
    }
}

/// A cradle is emptied if it holds the slot in local 30, from a line on.
fn add_emptied(lines: &mut Vec<Line>, base: u32, cradle: u32) -> Result<(), AllocError>
    requires { base ≤ 3000000000 }
    ensures { IfOk result (λ _. lines.new.items ≡ lines.old.items ++ emptied_line base cradle) }
{
    lines.extend_from_slice(&[
        Get(31, cradle),
        If(Differ(Local(31), Local(30)), base + 3),
        Keep(cradle, Number(0)),
    ])
}

/// The cradles of so many kinds.
#[tactic(auto, using(crate::proofs::Steps::emptied_begin, crate::proofs::Steps::emptied_goes, crate::proofs::Steps::emptied_end))]
fn add_all_emptied(lines: &mut Vec<Line>, base: u32, kinds: u32) -> Result<(), AllocError>
    requires near { base ≤ 2900000000 }
    requires few { kinds ≤ 4 }
    ensures { IfOk result (λ _. lines.new.items ≡ lines.old.items ++ emptied_lines base 0 (4 * kinds)) }
{
    for cradle in 0..4 * kinds {
        add_emptied(lines, base + 3 * cradle, cradle)?;
    }
    Ok(())
}

/// The node in a register was published.
fn add_published(
    lines: &mut Vec<Line>,
    base: u32,
    kinds: u32,
    register: Reg,
) -> Result<(), AllocError>
    requires near { base ≤ 2800000000 }
    requires few { kinds ≤ 4 }
    ensures { IfOk result (λ _. lines.new.items ≡ lines.old.items ++ published_lines base kinds register) }
{
    match register {
        Reg::Num(_) => Ok(()),
        Reg::Ref(_) => {
            lines.push(slot_line(register))?;
            add_all_emptied(lines, base + 1, kinds)
        }
    }
}

/// An auxiliary exchange, from a line on, which goes on at another line if it fails.
pub(crate) fn add_cas(
    lines: &mut Vec<Line>,
    fields: &[FieldDecl],
    base: u32,
    exchange: CasEntry,
    failed: u32,
) -> Result<(), AllocError>
    requires { base ≤ 2000000000 }
    ensures { IfOk result (λ _. lines.new.items ≡ lines.old.items ++ cas_block fields.now base exchange failed) }
{
    add_exchange(lines, fields, base, exchange, failed)?;
    add_retire(lines, base + place_size(exchange.place), exchange.retire)
}

/// What a commit's lines depend on beside its list: how many kinds there are, their fields, and the line of the wrap-up.
#[derive(Clone, Copy)]
pub(crate) struct Commit<'a> {
    pub kinds: u32,
    pub fields: &'a [FieldDecl],
    pub wrap_up: u32,
}

/// An exchange of a list, from a line on, before which so many have succeeded.
fn add_entry(
    lines: &mut Vec<Line>,
    commit: Commit,
    base: u32,
    made: u64,
    exchange: CasEntry,
) -> Result<(), AllocError>
    requires near { base ≤ 2000000000 }
    requires few { commit.kinds ≤ 4 }
    ensures { IfOk result (λ _. lines.new.items ≡ lines.old.items ++ entry_block commit.entry.fields.now commit.entry.kinds commit.entry.wrap_up base made exchange) }
{
    lines.push(Let(32, Is(Number(made))))?;
    let first = base + 1;
    add_exchange(lines, commit.fields, first, exchange, commit.wrap_up)?;
    let shown = first + place_size(exchange.place);
    add_published(lines, shown, commit.kinds, exchange.replacement)?;
    let retired = shown + published_size(commit.kinds, exchange.replacement);
    add_retire(lines, retired, exchange.retire)
}

/// The end of a list of which all exchanges succeeded.
fn add_list_end(lines: &mut Vec<Line>, wrap_up: u32, made: u64) -> Result<(), AllocError>
    ensures { IfOk result (λ _. lines.new.items ≡ lines.old.items ++ list_end wrap_up made) }
{
    lines.extend_from_slice(&[Let(32, Is(Number(made))), Goto(wrap_up)])
}

/// A list of exchanges, from a line on.
pub(crate) fn add_commit(
    lines: &mut Vec<Line>,
    commit: Commit,
    base: u32,
    exchanges: &[CasEntry],
) -> Result<(), AllocError>
    requires near { base ≤ 1900000000 }
    requires kinds { commit.kinds ≤ 4 }
    requires few { length exchanges.now ≤ 4 }
    ensures { IfOk result (λ _. lines.new.items ≡ lines.old.items ++ commit_block commit.entry.fields.now commit.entry.kinds commit.entry.wrap_up base 0 exchanges.now) }
{
    let mut line = base;
    for (made, exchange) in exchanges.iter().enumerate() {
        add_entry(lines, commit, line, made as u64, *exchange)?;
        line += entry_size(commit.kinds, *exchange);
    }
    add_list_end(lines, commit.wrap_up, exchanges.len() as u64)
}
