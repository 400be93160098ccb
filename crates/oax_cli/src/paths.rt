//! The way that leads to a node, by the names of roots and fields.

use norm_lang::text::{FieldDecl, Text};
use oa_text::{Failed, Piece, Sink, write_pieces};
use proper_judge::Trace;
use source_machine::{NamedNode, Value};

/// The name of a root, by its place. What a method run has got comes from no root.
fn start_name(text: &Text, root: Option<usize>) -> &[u8] {
    match root {
        None => b"got",
        Some(root) => match text.roots.items().get(root) {
            None => b"",
            Some(root) => root.name.items(),
        },
    }
}

/// The node with a name.
fn node_named(rows: &[NamedNode], name: u64) -> Option<&NamedNode> {
    for node in rows {
        if node.name == name {
            return Some(node);
        }
    }
    None
}

/// The place of the first value that refers to a name.
fn place_to(values: &[Value], name: u64) -> Option<usize> {
    for (place, value) in values.iter().enumerate() {
        if let Value::Node(reference) = *value {
            if reference.node == name {
                return Some(place);
            }
        }
    }
    None
}

/// The name of a kind's field, by its place among those of the kind.
fn field_at(fields: &[FieldDecl], kind: u8, place: usize) -> &[u8] {
    let mut left = place;
    for field in fields {
        if field.owner == kind {
            if left == 0 {
                return field.name.items();
            }
            left -= 1;
        }
    }
    b""
}

/// The name of the field by which a node leads to another.
fn field_between<'a>(text: &'a Text, rows: &[NamedNode], from: u64, to: u64) -> &'a [u8] {
    match node_named(rows, from) {
        None => b"",
        Some(node) => match place_to(node.values.items(), to) {
            None => b"",
            Some(place) => field_at(text.fields.items(), node.kind, place),
        },
    }
}

/// Writes a step of the way.
fn write_step<K: Sink>(out: &mut K, field: &[u8], name: u64) -> Result<(), Failed> {
    write_pieces(
        out,
        &[
            Piece::Bytes(b" > "),
            Piece::Bytes(field),
            Piece::Bytes(b" "),
            Piece::Number(name),
        ],
    )
}

/// Writes the steps from one name to the next.
fn write_steps<K: Sink>(
    out: &mut K,
    text: &Text,
    rows: &[NamedNode],
    first: u64,
    names: &[u64],
) -> Result<(), Failed> {
    let mut from = first;
    for name in names {
        write_step(out, field_between(text, rows, from, *name), *name)?;
        from = *name;
    }
    Ok(())
}

/// Writes the whole way, if there is one.
pub(crate) fn write_path<K: Sink>(out: &mut K, text: &Text, trace: &Trace) -> Result<(), Failed> {
    match trace.names.items().split_first() {
        None => Ok(()),
        Some((first, names)) => {
            write_pieces(
                out,
                &[
                    Piece::Bytes(start_name(text, trace.root)),
                    Piece::Bytes(b" "),
                    Piece::Number(*first),
                ],
            )?;
            let rows = trace.state.machine().memory.nodes.rows();
            write_steps(out, text, rows, *first, names)
        }
    }
}
