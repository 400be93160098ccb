//! How many fields and initial nodes each kind has that is declared so, in a text or in a target.

ghost use Rattle.std.specs.Prelude.{◌≡◌, ◌<◌, ◌^◌, length};
ghost use Rattle.caller_parts.specs.KindCounts.{greatest_of, node_count, kind_nodes};

use norm_lang::fields::count_of;
use norm_lang::text::{FieldDecl, NodeDecl};

/// The greatest count of fields that one of the first so many kinds has. Of all kinds: so many fields each slot has.
pub fn greatest_of(fields: &[FieldDecl], kinds: u8) -> usize
    ensures { result ≡ greatest_of fields.now kinds }
{
    let mut greatest = 0;
    for kind in 0..kinds {
        greatest = greatest.max(count_of(fields, kind));
    }
    greatest
}

/// How many initial nodes a kind has.
fn node_count(nodes: &[NodeDecl], kind: u8) -> u32
    requires { length nodes.now < 2 ^ 32 }
    ensures { result ≡ node_count nodes.now kind }
{
    nodes.iter().filter(|node| node.owner == kind).count() as u32
}

/// How many initial nodes each of four kinds has.
pub fn kind_nodes(nodes: &[NodeDecl]) -> [u32; 4]
    requires { length nodes.now < 2 ^ 32 }
    ensures { result ≡ kind_nodes nodes.now }
{
    [
        node_count(nodes, 0),
        node_count(nodes, 1),
        node_count(nodes, 2),
        node_count(nodes, 3),
    ]
}
