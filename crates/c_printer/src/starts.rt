//! What a pool opens with: the first values of roots, and the initial nodes.

ghost use Rattle.std.specs.Prelude.{◌≡◌, ◌++◌, OnOk};
ghost use Rattle.c_printer.specs.Starts.{first_text, first_texts, root_texts, roots_begin, nodes_begin, node_begin, node_end, node_text, node_texts, start_text};

use crate::filling::put_filled;
use crate::templates::{FIRST, NODE, NODE_END, NODES, ROOTS};
use norm_lang::text::{NodeDecl, RootDecl, Start};
use std::alloc::{AllocError, Global};

#[tactic(auto, unfolding(crate::specs::Starts::first_text))]
fn put_first(alloc: Global, out: &mut Vec<u8>, start: Start) -> Result<(), AllocError>
    ensures { OnOk result (out.new.items ≡ out.old.items ++ first_text start) }
{
    match start {
        Start::Value(number) => put_filled(alloc, out, b"", 0, number, FIRST),
        Start::Node(node) => put_filled(alloc, out, b"", node as u64, 0, FIRST),
    }
}

fn put_roots(alloc: Global, out: &mut Vec<u8>, roots: &[RootDecl]) -> Result<(), AllocError>
    ensures { OnOk result (out.new.items ≡ out.old.items ++ root_texts roots.now) }
{
    for root in roots {
        put_first(alloc, out, root.start)?;
    }
    Ok(())
}

fn put_values(alloc: Global, out: &mut Vec<u8>, values: &[Start]) -> Result<(), AllocError>
    ensures { OnOk result (out.new.items ≡ out.old.items ++ first_texts values.now) }
{
    for value in values {
        put_first(alloc, out, *value)?;
    }
    Ok(())
}

#[tactic(auto, unfolding(crate::specs::Starts::node_begin))]
fn put_node_begin(alloc: Global, out: &mut Vec<u8>, kind: u64) -> Result<(), AllocError>
    ensures { OnOk result (out.new.items ≡ out.old.items ++ node_begin kind) }
{
    put_filled(alloc, out, b"", kind, 0, NODE)
}

#[tactic(auto, unfolding(crate::specs::Starts::node_end))]
fn put_node_end(alloc: Global, out: &mut Vec<u8>) -> Result<(), AllocError>
    ensures { OnOk result (out.new.items ≡ out.old.items ++ node_end) }
{
    put_filled(alloc, out, b"", 0, 0, NODE_END)
}

fn put_node(alloc: Global, out: &mut Vec<u8>, node: &NodeDecl) -> Result<(), AllocError>
    ensures { OnOk result (out.new.items ≡ out.old.items ++ node_text node.now) }
{
    put_node_begin(alloc, out, node.owner as u64)?;
    put_values(alloc, out, node.values.items())?;
    put_node_end(alloc, out)
}

fn put_nodes(alloc: Global, out: &mut Vec<u8>, nodes: &[NodeDecl]) -> Result<(), AllocError>
    ensures { OnOk result (out.new.items ≡ out.old.items ++ node_texts nodes.now) }
{
    for node in nodes {
        put_node(alloc, out, node)?;
    }
    Ok(())
}

#[tactic(auto, unfolding(crate::specs::Starts::roots_begin))]
fn put_roots_begin(alloc: Global, out: &mut Vec<u8>, name: &[u8]) -> Result<(), AllocError>
    ensures { OnOk result (out.new.items ≡ out.old.items ++ roots_begin name.now) }
{
    put_filled(alloc, out, name, 0, 0, ROOTS)
}

#[tactic(auto, unfolding(crate::specs::Starts::nodes_begin))]
fn put_nodes_begin(alloc: Global, out: &mut Vec<u8>, name: &[u8]) -> Result<(), AllocError>
    ensures { OnOk result (out.new.items ≡ out.old.items ++ nodes_begin name.now) }
{
    put_filled(alloc, out, name, 0, 0, NODES)
}

/// Adds the first values of roots, and the initial nodes.
///
/// # Errors
/// Memory ran out.
pub fn put_start(
    alloc: Global,
    out: &mut Vec<u8>,
    name: &[u8],
    roots: &[RootDecl],
    nodes: &[NodeDecl],
) -> Result<(), AllocError>
    ensures { OnOk result (out.new.items ≡ out.old.items ++ start_text name.now roots.now nodes.now) }
{
    put_roots_begin(alloc, out, name)?;
    put_roots(alloc, out, roots)?;
    put_nodes_begin(alloc, out, name)?;
    put_nodes(alloc, out, nodes)
}
