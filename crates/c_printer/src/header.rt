//! A header: its declarations, structures and functions, and its end.

ghost use Rattle.std.specs.Prelude.{◌≡◌, ◌++◌, length, OnOk, IfOk};
ghost use Rattle.c_printer.specs.Header.{claim_text, claim_texts, declarations, structures, stride_text, stride_texts, opening, closing, declared_text, structured_text, function_texts, header_text};
ghost use Rattle.c_printer.specs.Operations.{declaration_texts, operation_texts};
ghost use Rattle.c_printer.specs.Starts.{start_text};

use crate::filling::put_filled;
use crate::functions::put_claim;
use crate::operations::{
    Operation, put_declarations as put_operation_declarations, put_operations,
};
use crate::starts::put_start;
use crate::templates::{CLAIM, CLOSING, DECLARATIONS, OPENING, STRIDE, STRUCTURES};
use c_language::lines::Line;
use norm_lang::list::Listed;
use norm_lang::text::{ByteText, NodeDecl, RootDecl};
use std::alloc::{AllocError, Global};

/// The lines of a function.
pub type Lines = Listed<Line>;

#[tactic(auto, unfolding(crate::specs::Header::claim_text))]
fn put_claim_text(
    alloc: Global,
    out: &mut Vec<u8>,
    name: &[u8],
    kind: u64,
) -> Result<(), AllocError>
    ensures { OnOk result (out.new.items ≡ out.old.items ++ claim_text name.now kind) }
{
    put_filled(alloc, out, name, kind, 0, CLAIM)
}

#[tactic(auto, using(crate::proofs::ClaimsPut::claims_done))]
fn put_claim_texts(
    alloc: Global,
    out: &mut Vec<u8>,
    name: &[u8],
    kinds: u64,
) -> Result<(), AllocError>
    ensures { OnOk result (out.new.items ≡ out.old.items ++ claim_texts name.now 0 kinds) }
{
    for kind in 0..kinds {
        put_claim_text(alloc, out, name, kind)?;
    }
    Ok(())
}

#[tactic(auto, unfolding(crate::specs::Header::stride_text))]
fn put_stride_text(alloc: Global, out: &mut Vec<u8>, stride: u64) -> Result<(), AllocError>
    ensures { OnOk result (out.new.items ≡ out.old.items ++ stride_text stride) }
{
    put_filled(alloc, out, b"", 0, stride, STRIDE)
}

fn put_stride_texts(alloc: Global, out: &mut Vec<u8>, strides: &[u64]) -> Result<(), AllocError>
    ensures { OnOk result (out.new.items ≡ out.old.items ++ stride_texts strides.now) }
{
    for stride in strides {
        put_stride_text(alloc, out, *stride)?;
    }
    Ok(())
}

#[tactic(auto, unfolding(crate::specs::Header::declarations))]
fn put_declarations(
    alloc: Global,
    out: &mut Vec<u8>,
    name: &[u8],
    kinds: u64,
) -> Result<(), AllocError>
    ensures { OnOk result (out.new.items ≡ out.old.items ++ declarations name.now kinds) }
{
    put_filled(alloc, out, name, kinds, 0, DECLARATIONS)
}

#[tactic(auto, unfolding(crate::specs::Header::structures))]
fn put_structures(
    alloc: Global,
    out: &mut Vec<u8>,
    name: &[u8],
    kinds: u64,
    roots: u64,
) -> Result<(), AllocError>
    ensures { OnOk result (out.new.items ≡ out.old.items ++ structures name.now kinds roots) }
{
    put_filled(alloc, out, name, kinds, roots, STRUCTURES)
}

#[tactic(auto, unfolding(crate::specs::Header::opening))]
fn put_opening(alloc: Global, out: &mut Vec<u8>, name: &[u8]) -> Result<(), AllocError>
    ensures { OnOk result (out.new.items ≡ out.old.items ++ opening name.now) }
{
    put_filled(alloc, out, name, 0, 0, OPENING)
}

#[tactic(auto, unfolding(crate::specs::Header::closing))]
fn put_closing(alloc: Global, out: &mut Vec<u8>, name: &[u8]) -> Result<(), AllocError>
    ensures { OnOk result (out.new.items ≡ out.old.items ++ closing name.now) }
{
    put_filled(alloc, out, name, 0, 0, CLOSING)
}

/// Adds the declarations of the pool, of so many claims and of operations.
fn put_all_declarations(
    alloc: Global,
    out: &mut Vec<u8>,
    name: &[u8],
    kinds: u64,
    operations: &[Operation],
) -> Result<(), AllocError>
    ensures { OnOk result (out.new.items ≡ out.old.items ++ declared_text name.now kinds operations.now) }
{
    put_declarations(alloc, out, name, kinds)?;
    put_claim_texts(alloc, out, name, kinds)?;
    put_operation_declarations(alloc, out, name, operations)
}

/// Adds the structures of the pool, and what it opens with.
fn put_all_structures(
    alloc: Global,
    out: &mut Vec<u8>,
    name: &[u8],
    strides: &[u64],
    roots: &[RootDecl],
    nodes: &[NodeDecl],
) -> Result<(), AllocError>
    ensures { OnOk result (out.new.items ≡ out.old.items ++ structured_text name.now strides.now roots.now nodes.now) }
{
    put_structures(alloc, out, name, strides.len() as u64, roots.len() as u64)?;
    put_stride_texts(alloc, out, strides)?;
    put_start(alloc, out, name, roots, nodes)?;
    put_opening(alloc, out, name)
}

fn put_functions(
    alloc: Global,
    out: &mut Vec<u8>,
    name: &[u8],
    strides: &[u64],
    claims: &[Lines],
) -> Result<(), AllocError>
    ensures { OnOk result (out.new.items ≡ out.old.items ++ function_texts name.now strides.now 0 claims.now) }
{
    for (kind, code) in claims.iter().enumerate() {
        put_claim(alloc, out, name, strides, kind as u64, code.items())?;
    }
    Ok(())
}

/// The header of a name: for kinds of nodes with so many words from one node to the next, with these roots and initial nodes, these claims, one of
/// each kind, and these operations.
///
/// # Errors
/// Memory ran out.
pub fn header(
    alloc: Global,
    name: &[u8],
    strides: &[u64],
    roots: &[RootDecl],
    nodes: &[NodeDecl],
    claims: &[Lines],
    operations: &[Operation],
) -> Result<ByteText, AllocError>
    ensures { IfOk result
        (λ text. text ≡ header_text name.now strides.now roots.now nodes.now claims.now operations.now) }
{
    let mut out = Vec::new(alloc);
    put_all_declarations(alloc, &mut out, name, strides.len() as u64, operations)?;
    put_all_structures(alloc, &mut out, name, strides, roots, nodes)?;
    out.push(b'\n')?;
    put_functions(alloc, &mut out, name, strides, claims)?;
    put_operations(alloc, &mut out, name, strides, operations)?;
    put_closing(alloc, &mut out, name)?;
    Ok(Listed::from_vec(out))
}
