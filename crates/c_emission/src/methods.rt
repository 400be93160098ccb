//! The lines of a method: the blocks of its instructions, each at its line.

ghost use Rattle.std.specs.Prelude.{◌≡◌, ◌≤◌, ◌+◌, ◌++◌, length, option_copied, IfOk, IsTrue};
ghost use Rattle.norm_lang.specs.KindFields.{place_of};
ghost use Rattle.caller_parts.specs.Operands.{is_new_of, news_before, cradle_of_kind};
ghost use Rattle.caller_parts.specs.KindCounts.{field_count};
ghost use Rattle.c_emission.specs.Blocks.{load_block, put_block};
ghost use Rattle.c_emission.specs.Locals.{jump_block};
ghost use Rattle.c_emission.specs.Exchanges.{kind_of_field, cas_block, commit_block};
ghost use Rattle.c_emission.specs.Ends.{new_block};
ghost use Rattle.c_emission.specs.Layout.{sum_first, start_of, method_sizes, start, plain_block, block_at, method_lines};
ghost use Rattle.c_emission.specs.Fitting.{IsSmall, has_few, has_few_exchanges};

use crate::blocks::{add_check, add_guard, add_load, add_pick, add_put, add_root};
use crate::ends::{Fresh, add_again, add_new, add_none, add_return};
use crate::exchanges::{Commit, add_cas, add_commit, kind_of_field, place_of_field};
use crate::locals::{
    add_add, add_equal, add_less, add_mark, add_marked, add_mov, add_null, add_rem, add_set,
    add_sub, add_unmark,
};
use crate::sizes::block_size;
use c_language::lines::Line;
use norm_lang::fields::count_of;
use norm_lang::text::{CasEntry, FieldDecl, Instr, Reg};
use std::alloc::AllocError;
use std::marker::Model;
use target_code::target::TargetInstr;

/// What the lines of a method depend on: how many kinds of nodes there are, their fields, the code, the line of the first block, where a
/// caller goes on that was warned, and where the wrap-up begins.
#[derive(Drop)]
pub(crate) struct Layout<'a> {
    pub kinds: u32,
    pub fields: &'a [FieldDecl],
    pub code: &'a [TargetInstr],
    pub first: u32,
    pub warned: u32,
    pub wrap_up: u32,
}

impl<'a> Model for Layout<'a> {
    ghost use Rattle.c_emission.specs.Layout.{Method};

    ghost Value = { Method };

    ghost view = { λ l. record { kinds = l.kinds; fields = l.fields.now; code = l.code.now; first = l.first; warned = l.warned; wrap_up = l.wrap_up } };
}

/// The line of an instruction's block, where so many lines stand before the first.
fn line_of(kinds: u32, fields: &[FieldDecl], code: &[TargetInstr], first: u32, at: usize) -> u32
    requires small { IsSmall kinds fields.now code.now }
    requires near { first ≤ 10000000 }
    ensures same { result ≡ start_of first (method_sizes kinds fields.now code.now) at }
    ensures near { result ≤ first + 1024000 }
{
    let mut line = first;
    for (place, instr) in code.iter().enumerate() {
        if place == at {
            return line;
        }
        line += block_size(kinds, fields, instr);
    }
    line
}

/// How many lines a method has.
pub(crate) fn method_size(kinds: u32, fields: &[FieldDecl], code: &[TargetInstr]) -> u32
    requires { IsSmall kinds fields.now code.now }
    ensures same { result ≡ sum_first (method_sizes kinds fields.now code.now) (length code.now) }
    ensures few { result ≤ 1024000 }
{
    line_of(kinds, fields, code, 0, code.len())
}

/// The line of an instruction's block.
fn start(layout: &Layout, at: usize) -> u32
    requires small { IsSmall layout.now.kinds layout.now.fields layout.now.code }
    requires near { layout.now.first ≤ 10000000 }
    ensures same { result ≡ start layout.now at }
    ensures near { result ≤ 20000000 }
{
    line_of(layout.kinds, layout.fields, layout.code, layout.first, at)
}

fn add_field_load(
    lines: &mut Vec<Line>,
    fields: &[FieldDecl],
    d: Reg,
    a: Reg,
    f: u8,
) -> Result<(), AllocError>
    ensures { IfOk result (λ _. lines.new.items ≡ lines.old.items ++ load_block d a (kind_of_field fields.now f) (place_of fields.now f)) }
{
    let (kind, place) = (kind_of_field(fields, f), place_of_field(fields, f));
    add_load(lines, d, a, kind, place)
}

fn add_field_put(
    lines: &mut Vec<Line>,
    fields: &[FieldDecl],
    a: Reg,
    f: u8,
    b: Reg,
) -> Result<(), AllocError>
    ensures { IfOk result (λ _. lines.new.items ≡ lines.old.items ++ put_block a (kind_of_field fields.now f) (place_of fields.now f) b) }
{
    let (kind, place) = (kind_of_field(fields, f), place_of_field(fields, f));
    add_put(lines, a, kind, place, b)
}

fn add_jump(lines: &mut Vec<Line>, to: u32) -> Result<(), AllocError>
    ensures { IfOk result (λ _. lines.new.items ≡ lines.old.items ++ jump_block to) }
{
    lines.extend_from_slice(&[Line::Goto(to)])
}

fn add_auxiliary(
    lines: &mut Vec<Line>,
    layout: &Layout,
    at: usize,
    exchange: CasEntry,
    failed: u16,
) -> Result<(), AllocError>
    requires small { IsSmall layout.now.kinds layout.now.fields layout.now.code }
    requires near { layout.now.first ≤ 10000000 }
    ensures { IfOk result (λ _. lines.new.items ≡ lines.old.items ++ cas_block layout.now.fields (start layout.now at) exchange (start layout.now failed)) }
{
    let to = start(layout, failed as usize);
    add_cas(lines, layout.fields, start(layout, at), exchange, to)
}

/// Whether it is a `new` of a node of a kind.
fn is_new_of(kind: u8, instr: Option<&TargetInstr>) -> bool
    ensures { result ≡ is_new_of kind (option_copied instr.entry) }
{
    match instr {
        Some(TargetInstr::Plain(Instr::New(_, made))) => *made == kind,
        _ => false,
    }
}

/// How many `new` of a kind stand before a place.
fn news_before(kind: u8, code: &[TargetInstr], at: usize) -> usize
    ensures same { result ≡ news_before kind code.now at }
    ensures few { result ≤ at }
{
    let mut count = 0;
    for place in 0..at {
        if is_new_of(kind, code.get(place)) {
            count += 1;
        }
    }
    count
}

/// The cradle of the `new` of a kind at a place.
fn cradle_at(kind: u8, code: &[TargetInstr], at: usize) -> u32
    requires { at ≤ 4096 }
    ensures { result ≡ cradle_of_kind kind code.now at }
{
    4 * kind as u32 + news_before(kind, code, at) as u32
}

#[tactic(auto, using(crate::proofs::Steps::few_of_kind))]
fn add_fresh(
    lines: &mut Vec<Line>,
    layout: &Layout,
    at: usize,
    d: Reg,
    kind: u8,
) -> Result<(), AllocError>
    requires small { IsSmall layout.now.kinds layout.now.fields layout.now.code }
    requires within { at ≤ 4096 }
    requires near { layout.now.first ≤ 10000000 }
    ensures { IfOk result (λ _. lines.new.items ≡ lines.old.items ++ new_block (start layout.now at) d kind (cradle_of_kind kind layout.now.code at) (field_count layout.now.fields kind)) }
{
    let fresh = Fresh {
        register: d,
        kind: kind as u32,
        cradle: cradle_at(kind, layout.code, at),
        count: count_of(layout.fields, kind) as u32,
    };
    add_new(lines, start(layout, at), fresh)
}

fn add_list(
    lines: &mut Vec<Line>,
    layout: &Layout,
    at: usize,
    exchanges: &[CasEntry],
) -> Result<(), AllocError>
    requires small { IsSmall layout.now.kinds layout.now.fields layout.now.code }
    requires near { layout.now.first ≤ 10000000 }
    requires few { length exchanges.now ≤ 4 }
    ensures { IfOk result (λ _. lines.new.items ≡ lines.old.items ++ commit_block layout.now.fields layout.now.kinds layout.now.wrap_up (start layout.now at) 0 exchanges.now) }
{
    let commit = Commit {
        kinds: layout.kinds,
        fields: layout.fields,
        wrap_up: layout.wrap_up,
    };
    add_commit(lines, commit, start(layout, at), exchanges)
}

/// The block of an instruction of the language.
fn add_plain(
    lines: &mut Vec<Line>,
    layout: &Layout,
    at: usize,
    instr: &Instr,
) -> Result<(), AllocError>
    requires small { IsSmall layout.now.kinds layout.now.fields layout.now.code }
    requires within { at ≤ 4096 }
    requires near { layout.now.first ≤ 10000000 }
    requires few { IsTrue (has_few instr.now) }
    ensures { IfOk result (λ _. lines.new.items ≡ lines.old.items ++ plain_block layout.now at instr.now) }
{
    match instr {
        Instr::Set(d, n) => add_set(lines, *d, *n),
        Instr::Mov(d, a) => add_mov(lines, *d, *a),
        Instr::Add(d, a, b) => add_add(lines, *d, *a, *b),
        Instr::Sub(d, a, b) => add_sub(lines, *d, *a, *b),
        Instr::Rem(d, a, n) => add_rem(lines, *d, *a, *n),
        Instr::Mark(d, a) => add_mark(lines, *d, *a),
        Instr::Unmark(d, a) => add_unmark(lines, *d, *a),
        Instr::Null(d) => add_null(lines, *d),
        Instr::LoadRoot(d, x) => add_root(lines, *d, *x),
        Instr::LoadPick(d, x, count, a) => add_pick(lines, *d, *x, *count, *a),
        Instr::LoadField(d, a, f) => add_field_load(lines, layout.fields, *d, *a, *f),
        Instr::New(d, kind) => add_fresh(lines, layout, at, *d, *kind),
        Instr::Put(a, f, b) => add_field_put(lines, layout.fields, *a, *f, *b),
        Instr::Cas(exchange, l) => add_auxiliary(lines, layout, at, *exchange, *l),
        Instr::Jump(l) => add_jump(lines, start(layout, *l as usize)),
        Instr::IfEq(a, b, l) => add_equal(lines, *a, *b, start(layout, *l as usize)),
        Instr::IfLess(a, b, l) => add_less(lines, *a, *b, start(layout, *l as usize)),
        Instr::IfMarked(a, l) => add_marked(lines, *a, start(layout, *l as usize)),
        Instr::Commit(exchanges) => add_list(lines, layout, at, exchanges.items()),
        Instr::Return(a) => add_return(lines, start(layout, at), *a),
        Instr::ReturnNone => add_none(lines, start(layout, at)),
        Instr::Again => add_again(lines, start(layout, at)),
    }
}

/// The block of an instruction.
fn add_block(
    lines: &mut Vec<Line>,
    layout: &Layout,
    at: usize,
    instr: &TargetInstr,
) -> Result<(), AllocError>
    requires small { IsSmall layout.now.kinds layout.now.fields layout.now.code }
    requires within { at ≤ 4096 }
    requires near { layout.now.first ≤ 10000000 }
    requires few { IsTrue (has_few_exchanges instr.now) }
    ensures { IfOk result (λ _. lines.new.items ≡ lines.old.items ++ block_at layout.now at instr.now) }
{
    match instr {
        TargetInstr::Plain(instr) => add_plain(lines, layout, at, instr),
        TargetInstr::Check => add_check(lines, layout.warned),
        TargetInstr::Guard(register) => add_guard(lines, *register),
    }
}

/// The lines of a method.
pub(crate) fn add_method(lines: &mut Vec<Line>, layout: &Layout) -> Result<(), AllocError>
    requires small { IsSmall layout.now.kinds layout.now.fields layout.now.code }
    requires near { layout.now.first ≤ 10000000 }
    ensures { IfOk result (λ _. lines.new.items ≡ lines.old.items ++ method_lines layout.now) }
{
    for (at, instr) in layout.code.iter().enumerate() {
        add_block(lines, layout, at, instr)?;
    }
    Ok(())
}
