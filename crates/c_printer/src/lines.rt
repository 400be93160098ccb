//! The tokens of lines.

ghost use Rattle.std.specs.Prelude.{◌≡◌, ◌++◌, OnOk};
ghost use Rattle.c_language.specs.declared.lines.Line.TheVariants as lines;
ghost use Rattle.c_printer.specs.Tokens.{indexed, node_tokens, field_tokens, root_tokens, place_tokens, two_tokens, value_tokens, test_tokens, jump_tokens, becomes_tokens, access_tokens, bit_tokens, line_tokens};

use crate::tokens::{Entry, Sign, Token};
use c_language::lines::{Answer, Line, Operand, Place, Test, Value};
use std::alloc::{AllocError, Global};

fn add_indexed(out: &mut Vec<Token>, array: Sign, at: Operand) -> Result<(), AllocError>
    ensures { OnOk result (out.new.items ≡ out.old.items ++ indexed array at) }
{
    out.extend_from_slice(&[
        Token::Sign(array),
        Token::Sign(Sign::OpenBracket),
        Token::Operand(at),
        Token::Sign(Sign::CloseBracket),
    ])
}

/// Which of a kind's nodes a slot is: null is the first.
fn add_node(out: &mut Vec<Token>, kind: u32, slot: Operand) -> Result<(), AllocError>
    ensures { OnOk result (out.new.items ≡ out.old.items ++ node_tokens kind slot) }
{
    out.extend_from_slice(&[
        Token::Sign(Sign::Open),
        Token::Operand(slot),
        Token::Sign(Sign::Greater),
        Token::Below(kind),
        Token::Sign(Sign::Question),
        Token::Operand(slot),
        Token::Sign(Sign::Minus),
        Token::Below(kind),
        Token::Sign(Sign::Colon),
        Token::Operand(Operand::Number(0)),
        Token::Sign(Sign::Close),
    ])
}

fn add_field(out: &mut Vec<Token>, kind: u32, slot: Operand, at: u32) -> Result<(), AllocError>
    ensures { OnOk result (out.new.items ≡ out.old.items ++ field_tokens kind slot at) }
{
    out.extend_from_slice(&[Token::Field(kind), Token::Sign(Sign::OpenBracket)])?;
    add_node(out, kind, slot)?;
    out.extend_from_slice(&[
        Token::Sign(Sign::Star),
        Token::Stride(kind),
        Token::Sign(Sign::Plus),
        Token::Operand(Operand::Number(at as u64)),
        Token::Sign(Sign::CloseBracket),
    ])
}

fn add_root(out: &mut Vec<Token>, first: u32, at: Operand) -> Result<(), AllocError>
    ensures { OnOk result (out.new.items ≡ out.old.items ++ root_tokens first at) }
{
    out.extend_from_slice(&[
        Token::Sign(Sign::Root),
        Token::Sign(Sign::OpenBracket),
        Token::Sign(Sign::Open),
        Token::Operand(Operand::Number(first as u64)),
        Token::Sign(Sign::Plus),
        Token::Operand(at),
        Token::Sign(Sign::Close),
        Token::Sign(Sign::Star),
        Token::Sign(Sign::RootStride),
        Token::Sign(Sign::CloseBracket),
    ])
}

/// Adds the tokens of a place: an element of an array.
fn add_place(out: &mut Vec<Token>, place: Place) -> Result<(), AllocError>
    ensures { OnOk result (out.new.items ≡ out.old.items ++ place_tokens place) }
{
    match place {
        Place::Phase => out.extend_from_slice(&[Token::Sign(Sign::Phase)]),
        Place::Warning(c) => {
            add_indexed(out, Sign::Row, c)?;
            out.extend_from_slice(&[Token::Sign(Sign::Warning)])
        }
        Place::Hazard(c, r) => {
            add_indexed(out, Sign::Row, c)?;
            add_indexed(out, Sign::Hazard, r)
        }
        Place::Status(j) => add_indexed(out, Sign::Status, j),
        Place::Field(k, j, g) => add_field(out, k, j, g),
        Place::Root(x, a) => add_root(out, x, a),
        Place::Head(k) => {
            add_indexed(out, Sign::Head, k)?;
            out.extend_from_slice(&[Token::Sign(Sign::Word)])
        }
        Place::Link(j) => add_indexed(out, Sign::Link, j),
    }
}

fn add_two(out: &mut Vec<Token>, a: Operand, sign: Sign, b: Operand) -> Result<(), AllocError>
    ensures { OnOk result (out.new.items ≡ out.old.items ++ two_tokens a sign b) }
{
    out.extend_from_slice(&[Token::Operand(a), Token::Sign(sign), Token::Operand(b)])
}

fn add_value(out: &mut Vec<Token>, value: Value) -> Result<(), AllocError>
    ensures { OnOk result (out.new.items ≡ out.old.items ++ value_tokens value) }
{
    match value {
        Value::Is(a) => out.extend_from_slice(&[Token::Operand(a)]),
        Value::Plus(a, b) => add_two(out, a, Sign::Plus, b),
        Value::Minus(a, b) => add_two(out, a, Sign::Minus, b),
        Value::Times(a, b) => add_two(out, a, Sign::Star, b),
        Value::Over(a, b) => add_two(out, a, Sign::Slash, b),
        Value::Rest(a, b) => add_two(out, a, Sign::Percent, b),
    }
}

fn add_test(out: &mut Vec<Token>, test: Test) -> Result<(), AllocError>
    ensures { OnOk result (out.new.items ≡ out.old.items ++ test_tokens test) }
{
    match test {
        Test::Equal(a, b) => add_two(out, a, Sign::Equal, b),
        Test::Differ(a, b) => add_two(out, a, Sign::Differ, b),
        Test::Less(a, b) => add_two(out, a, Sign::Less, b),
    }
}

/// `goto`, a label, and the end of the line.
fn add_jump(out: &mut Vec<Token>, l: u32) -> Result<(), AllocError>
    ensures { OnOk result (out.new.items ≡ out.old.items ++ jump_tokens l) }
{
    out.extend_from_slice(&[
        Token::Sign(Sign::Goto),
        Token::Label(l as u64),
        Token::Sign(Sign::Semicolon),
    ])
}

/// A local and `=`.
fn add_becomes(out: &mut Vec<Token>, d: u32) -> Result<(), AllocError>
    ensures { OnOk result (out.new.items ≡ out.old.items ++ becomes_tokens d) }
{
    out.extend_from_slice(&[
        Token::Operand(Operand::Local(d)),
        Token::Sign(Sign::Becomes),
    ])
}

fn add_let(out: &mut Vec<Token>, d: u32, value: Value) -> Result<(), AllocError>
    ensures { OnOk result (out.new.items ≡ out.old.items ++ line_tokens (lines.Let d value)) }
{
    add_becomes(out, d)?;
    add_value(out, value)?;
    out.extend_from_slice(&[Token::Sign(Sign::Semicolon)])
}

fn add_if(out: &mut Vec<Token>, test: Test, l: u32) -> Result<(), AllocError>
    ensures { OnOk result (out.new.items ≡ out.old.items ++ line_tokens (lines.If test l)) }
{
    out.extend_from_slice(&[Token::Sign(Sign::If), Token::Sign(Sign::Open)])?;
    add_test(out, test)?;
    out.extend_from_slice(&[Token::Sign(Sign::Close)])?;
    add_jump(out, l)
}

/// An access macro with the address of a place.
fn add_access(out: &mut Vec<Token>, entry: Entry, place: Place) -> Result<(), AllocError>
    ensures { OnOk result (out.new.items ≡ out.old.items ++ access_tokens entry place) }
{
    out.extend_from_slice(&[
        Token::Entry(entry),
        Token::Sign(Sign::Open),
        Token::Sign(Sign::Address),
    ])?;
    add_place(out, place)
}

fn add_load(out: &mut Vec<Token>, d: u32, place: Place) -> Result<(), AllocError>
    ensures { OnOk result (out.new.items ≡ out.old.items ++ line_tokens (lines.Load d place)) }
{
    add_becomes(out, d)?;
    add_access(out, Entry::Load, place)?;
    out.extend_from_slice(&[Token::Sign(Sign::Close), Token::Sign(Sign::Semicolon)])
}

fn add_store(out: &mut Vec<Token>, place: Place, a: Operand) -> Result<(), AllocError>
    ensures { OnOk result (out.new.items ≡ out.old.items ++ line_tokens (lines.Store place a)) }
{
    add_access(out, Entry::Store, place)?;
    out.extend_from_slice(&[
        Token::Sign(Sign::Comma),
        Token::Operand(a),
        Token::Sign(Sign::Close),
        Token::Sign(Sign::Semicolon),
    ])
}

/// A temporary holds the expected word, and then the word that was found. So no operand is read after the local was set.
fn add_exchange(
    out: &mut Vec<Token>,
    d: u32,
    place: Place,
    expected: Operand,
    replacement: Operand,
) -> Result<(), AllocError>
    ensures { OnOk result (out.new.items ≡ out.old.items ++ line_tokens (lines.Exchange d place expected replacement)) }
{
    out.extend_from_slice(&[
        Token::Sign(Sign::OpenBrace),
        Token::Sign(Sign::Uint64),
        Token::Sign(Sign::Temporary),
        Token::Sign(Sign::Becomes),
        Token::Operand(expected),
        Token::Sign(Sign::Semicolon),
    ])?;
    add_access(out, Entry::Swap, place)?;
    out.extend_from_slice(&[
        Token::Sign(Sign::Comma),
        Token::Sign(Sign::Address),
        Token::Sign(Sign::Temporary),
        Token::Sign(Sign::Comma),
        Token::Operand(replacement),
        Token::Sign(Sign::Close),
        Token::Sign(Sign::Semicolon),
    ])?;
    add_becomes(out, d)?;
    out.extend_from_slice(&[
        Token::Sign(Sign::Temporary),
        Token::Sign(Sign::Semicolon),
        Token::Sign(Sign::CloseBrace),
    ])
}

/// The bit of a slot becomes 1 or 0.
fn add_bit(out: &mut Vec<Token>, slot: Operand, bit: u64) -> Result<(), AllocError>
    ensures { OnOk result (out.new.items ≡ out.old.items ++ bit_tokens slot bit) }
{
    add_indexed(out, Sign::Noted, slot)?;
    out.extend_from_slice(&[
        Token::Sign(Sign::Becomes),
        Token::Operand(Operand::Number(bit)),
        Token::Sign(Sign::Semicolon),
    ])
}

/// A bit that is set is cleared before the jump; one that isn't stays clear.
fn add_if_noted(out: &mut Vec<Token>, slot: Operand, l: u32) -> Result<(), AllocError>
    ensures { OnOk result (out.new.items ≡ out.old.items ++ line_tokens (lines.IfNoted slot l)) }
{
    out.extend_from_slice(&[Token::Sign(Sign::If), Token::Sign(Sign::Open)])?;
    add_indexed(out, Sign::Noted, slot)?;
    out.extend_from_slice(&[Token::Sign(Sign::Close), Token::Sign(Sign::OpenBrace)])?;
    add_bit(out, slot, 0)?;
    add_jump(out, l)?;
    out.extend_from_slice(&[Token::Sign(Sign::CloseBrace)])
}

fn add_get(out: &mut Vec<Token>, d: u32, k: u32) -> Result<(), AllocError>
    ensures { OnOk result (out.new.items ≡ out.old.items ++ line_tokens (lines.Get d k)) }
{
    add_becomes(out, d)?;
    add_indexed(out, Sign::Cradle, Operand::Number(k as u64))?;
    out.extend_from_slice(&[Token::Sign(Sign::Semicolon)])
}

fn add_keep(out: &mut Vec<Token>, k: u32, a: Operand) -> Result<(), AllocError>
    ensures { OnOk result (out.new.items ≡ out.old.items ++ line_tokens (lines.Keep k a)) }
{
    add_indexed(out, Sign::Cradle, Operand::Number(k as u64))?;
    out.extend_from_slice(&[
        Token::Sign(Sign::Becomes),
        Token::Operand(a),
        Token::Sign(Sign::Semicolon),
    ])
}

fn add_call(out: &mut Vec<Token>, d: u32, function: u32) -> Result<(), AllocError>
    ensures { OnOk result (out.new.items ≡ out.old.items ++ line_tokens (lines.Call d function)) }
{
    add_becomes(out, d)?;
    out.extend_from_slice(&[
        Token::Entry(Entry::Claim(function)),
        Token::Sign(Sign::Open),
        Token::Sign(Sign::Caller),
        Token::Sign(Sign::Close),
        Token::Sign(Sign::Semicolon),
    ])
}

fn add_return(out: &mut Vec<Token>, a: Operand) -> Result<(), AllocError>
    ensures { OnOk result (out.new.items ≡ out.old.items ++ line_tokens (lines.Return a)) }
{
    out.extend_from_slice(&[
        Token::Sign(Sign::Return),
        Token::Operand(a),
        Token::Sign(Sign::Semicolon),
    ])
}

fn add_reply(out: &mut Vec<Token>, answer: Answer, a: Operand) -> Result<(), AllocError>
    ensures { OnOk result (out.new.items ≡ out.old.items ++ line_tokens (lines.Reply answer a)) }
{
    out.extend_from_slice(&[
        Token::Sign(Sign::OpenBrace),
        Token::Sign(Sign::Star),
        Token::Sign(Sign::Reply),
        Token::Sign(Sign::Becomes),
        Token::Operand(a),
        Token::Sign(Sign::Semicolon),
        Token::Sign(Sign::Return),
        Token::Entry(Entry::Answer(answer)),
        Token::Sign(Sign::Semicolon),
        Token::Sign(Sign::CloseBrace),
    ])
}

/// Adds the tokens of a line.
///
/// # Errors
/// Memory ran out.
pub fn add_line(out: &mut Vec<Token>, line: Line) -> Result<(), AllocError>
    ensures { OnOk result (out.new.items ≡ out.old.items ++ line_tokens line) }
{
    match line {
        Line::Let(d, value) => add_let(out, d, value),
        Line::Goto(l) => add_jump(out, l),
        Line::If(test, l) => add_if(out, test, l),
        Line::Load(d, place) => add_load(out, d, place),
        Line::Store(place, a) => add_store(out, place, a),
        Line::Exchange(d, place, expected, replacement) => {
            add_exchange(out, d, place, expected, replacement)
        }
        Line::Note(slot) => add_bit(out, slot, 1),
        Line::IfNoted(slot, l) => add_if_noted(out, slot, l),
        Line::Get(d, k) => add_get(out, d, k),
        Line::Keep(k, a) => add_keep(out, k, a),
        Line::Call(d, function) => add_call(out, d, function),
        Line::Return(a) => add_return(out, a),
        Line::Reply(answer, a) => add_reply(out, answer, a),
    }
}
