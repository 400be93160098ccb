//! Functions: a head, lines, and the end.

ghost use Rattle.std.specs.Prelude.{◌≡◌, ℕ, ◌++◌, ◌∷◌, OnOk, IfOk};
ghost use Rattle.std.specs.List.{list_any};
ghost use Rattle.c_printer.specs.Names.{names_of};
ghost use Rattle.c_printer.specs.Functions.{jumps_to, placed_tokens, code_text, kind_text, kind_texts, local_text, local_texts, pool_names, claim_head, claim_front, claim_function, body_text, function_text};
ghost use Rattle.c_printer.specs.declared.locals.Table.TheVariants.{Claims};

use crate::filling::put_filled;
use crate::lines::add_line;
use crate::locals::{Table, local_count, local_name};
use crate::templates::{CLAIM_HEAD, FIRST_KIND, FURTHER_KIND, LOCAL, POOL_NAMES};
use crate::tokens::{Sign, Token, put_tokens};
use c_language::lines::Line;
use std::alloc::{AllocError, Global};

fn jumps_to(line: &Line, at: u64) -> bool
    ensures { result ≡ jumps_to at line.now }
{
    match *line {
        Line::Goto(l) => l as u64 == at,
        Line::If(_, l) => l as u64 == at,
        Line::IfNoted(_, l) => l as u64 == at,
        _ => false,
    }
}

fn is_target(code: &[Line], at: u64) -> bool
    ensures { result ≡ list_any (jumps_to at) code.now }
{
    code.iter().any(|line| jumps_to(line, at))
}

/// The tokens of a line, after its label if a line jumps to it.
fn placed_tokens(
    alloc: Global,
    code: &[Line],
    at: u64,
    line: Line,
) -> Result<Vec<Token>, AllocError>
    ensures { IfOk result (λ tokens. tokens.items ≡ placed_tokens code.now at line) }
{
    let mut tokens = Vec::new(alloc);
    if is_target(code, at) {
        tokens.extend_from_slice(&[Token::Label(at), Token::Sign(Sign::Colon)])?;
    }
    add_line(&mut tokens, line)?;
    Ok(tokens)
}

/// Adds the lines of a function, each with a label if a line jumps to it.
///
/// # Errors
/// Memory ran out.
fn put_code(
    alloc: Global,
    out: &mut Vec<u8>,
    name: &[u8],
    table: Table,
    code: &[Line],
) -> Result<(), AllocError>
    ensures { OnOk result (out.new.items ≡ out.old.items ++ code_text name.now (names_of table) code.now 0 code.now) }
{
    for (at, line) in code.iter().enumerate() {
        let tokens = placed_tokens(alloc, code, at as u64, *line)?;
        put_tokens(alloc, out, name, table, &tokens)?;
    }
    Ok(())
}

#[tactic(auto, unfolding(crate::specs::Functions::kind_text))]
fn put_kind(alloc: Global, out: &mut Vec<u8>, kind: u64, stride: u64) -> Result<(), AllocError>
    ensures { OnOk result (out.new.items ≡ out.old.items ++ kind_text kind stride) }
{
    if kind == 0 {
        put_filled(alloc, out, b"", kind, stride, FIRST_KIND)
    } else {
        put_filled(alloc, out, b"", kind, stride, FURTHER_KIND)
    }
}

fn put_kinds(alloc: Global, out: &mut Vec<u8>, strides: &[u64]) -> Result<(), AllocError>
    ensures { OnOk result (out.new.items ≡ out.old.items ++ kind_texts 0 strides.now) }
{
    for (kind, stride) in strides.iter().enumerate() {
        put_kind(alloc, out, kind as u64, *stride)?;
    }
    Ok(())
}

#[tactic(auto, unfolding(crate::specs::Functions::local_text))]
fn put_local(alloc: Global, out: &mut Vec<u8>, name: &[u8]) -> Result<(), AllocError>
    ensures { OnOk result (out.new.items ≡ out.old.items ++ local_text name.now) }
{
    put_filled(alloc, out, name, 0, 0, LOCAL)
}

fn put_locals(alloc: Global, out: &mut Vec<u8>, table: Table) -> Result<(), AllocError>
    ensures { OnOk result (out.new.items ≡ out.old.items ++ local_texts (names_of table)) }
{
    for d in 0..local_count(table) {
        put_local(alloc, out, local_name(table, d))?;
    }
    Ok(())
}

#[tactic(auto, unfolding(crate::specs::Functions::pool_names))]
fn put_pool_names(alloc: Global, out: &mut Vec<u8>, name: &[u8]) -> Result<(), AllocError>
    ensures { OnOk result (out.new.items ≡ out.old.items ++ pool_names name.now) }
{
    put_filled(alloc, out, name, 0, 0, POOL_NAMES)
}

/// Adds what a function names: what it reads of the pool, the names of kinds, and its locals.
///
/// # Errors
/// Memory ran out.
pub fn put_names(
    alloc: Global,
    out: &mut Vec<u8>,
    name: &[u8],
    strides: &[u64],
    table: Table,
) -> Result<(), AllocError>
    ensures { OnOk result
        (out.new.items ≡ out.old.items ++ (pool_names name.now ++ (kind_texts 0 strides.now ++ local_texts (names_of table)))) }
{
    put_pool_names(alloc, out, name)?;
    put_kinds(alloc, out, strides)?;
    put_locals(alloc, out, table)
}

#[tactic(auto, unfolding(crate::specs::Functions::claim_head))]
fn put_claim_head(
    alloc: Global,
    out: &mut Vec<u8>,
    name: &[u8],
    kind: u64,
) -> Result<(), AllocError>
    ensures { OnOk result (out.new.items ≡ out.old.items ++ claim_head name.now kind) }
{
    put_filled(alloc, out, name, kind, 0, CLAIM_HEAD)
}

/// Adds the lines of a function, between the newline of its head and its end.
///
/// # Errors
/// Memory ran out.
pub fn put_body(
    alloc: Global,
    out: &mut Vec<u8>,
    name: &[u8],
    table: Table,
    code: &[Line],
) -> Result<(), AllocError>
    ensures { OnOk result (out.new.items ≡ out.old.items ++ (10 ∷ body_text name.now (names_of table) code.now)) }
{
    out.push(b'\n')?;
    put_code(alloc, out, name, table, code)?;
    put_tokens(alloc, out, name, table, &[Token::Sign(Sign::CloseBrace)])
}

/// Adds the claim of a kind, with these lines.
///
/// # Errors
/// Memory ran out.
pub fn put_claim(
    alloc: Global,
    out: &mut Vec<u8>,
    name: &[u8],
    strides: &[u64],
    kind: u64,
    code: &[Line],
) -> Result<(), AllocError>
    ensures { OnOk result
        (out.new.items ≡ out.old.items ++ function_text name.now (claim_function name.now strides.now kind code.now)) }
{
    put_claim_head(alloc, out, name, kind)?;
    put_names(alloc, out, name, strides, Table::Claims)?;
    put_body(alloc, out, name, Table::Claims, code)
}
