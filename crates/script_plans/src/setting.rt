//! The setting of a document.

ghost use Rattle.std.specs.Prelude.{◌≡◌, ◌≤◌, ◌<◌, ◌^◌, length, true};
ghost use Rattle.oa_words.specs.Within.{is_count};
ghost use Rattle.caller_parts.specs.Settings.{have_slots};
ghost use Rattle.script_plans.specs.Shapes.{whole_fault, sizes_of, sizes_fault, first_crowded, nodes_fault, setting_with, setting_under, rest_fault, setting_fault};
ghost use Rattle.script_plans.specs.Told.{sizes_number, or_fault};

use crate::calls::padded;
use crate::fault::ShapeFault;
use crate::limits::MOST_FUEL;
use caller_parts::counts::{greatest_of, kind_nodes};
use caller_parts::{Reclamation, Setting};
use documents::Document;
use oa_words::shape::{Shape, ShapeFault as SizesFault};

/// A fault of the document as a whole.
fn whole_fault(number: u8) -> ShapeFault
    ensures { result ≡ whole_fault number }
{
    ShapeFault { number, at: 0 }
}

fn sizes_number(fault: SizesFault) -> u8
    ensures { result ≡ sizes_number fault }
{
    match fault {
        SizesFault::Callers => 1,
        SizesFault::Kinds => 2,
        SizesFault::Slots => 2,
        SizesFault::Fields => 3,
        SizesFault::Cells => 4,
    }
}

/// The shape of the row, or what is wrong with its sizes.
#[tactic(auto, using(crate::proofs::Settings::shape_fine, crate::proofs::Settings::shape_refused))]
fn shape_of(document: &Document) -> Result<Shape, ShapeFault>
    requires { length document.now.text.kinds ≤ 4 }
    ensures { result ≡ or_fault (sizes_fault (length document.now.text.kinds) (sizes_of document.now)) (sizes_of document.now) }
{
    let text = &document.text;
    let callers = document.scripts.items().len() as u64;
    let slots = padded(document.slots.items());
    let kinds = text.kinds.items().len() as u8;
    let fields = greatest_of(text.fields.items(), kinds) as u64;
    let cells = text.roots.items().len() as u64;
    match Shape::of_kinds(callers, slots, kinds as u64, fields, cells) {
        Ok(shape) => Ok(shape),
        Err(fault) => Err(whole_fault(sizes_number(fault))),
    }
}

/// The first kind that has more initial nodes than slots.
#[tactic(auto, using(crate::proofs::Counting::crowded_more, crate::proofs::Counting::crowded_found))]
fn first_crowded(slots: &[u64], nodes: &[u32]) -> Option<usize>
    requires { length slots.now ≤ length nodes.now }
    ensures { result ≡ first_crowded slots.now nodes.now (length slots.now) }
{
    for kind in 0..slots.len() {
        if nodes[kind] as u64 > slots[kind] {
            return Some(kind);
        }
    }
    None
}

/// The fault of the first kind that has more initial nodes than slots.
fn nodes_fault(slots: &[u64], nodes: &[u32]) -> Option<ShapeFault>
    requires { length slots.now ≤ length nodes.now }
    ensures { result ≡ nodes_fault slots.now nodes.now }
{
    match first_crowded(slots, nodes) {
        None => None,
        Some(kind) => Some(ShapeFault {
            number: 5,
            at: kind as u64,
        }),
    }
}

fn fuel_fits(fuel: u64) -> bool
    ensures { result ≡ is_count MOST_FUEL fuel }
{
    1 <= fuel && fuel <= MOST_FUEL
}

/// The setting of a document over a row in which each kind has slots for its initial nodes, or what is wrong with the rest of it.
#[tactic(auto, using(crate::proofs::Settings::over_fine, crate::proofs::Settings::over_unfuelled, crate::proofs::Settings::over_refused))]
fn setting_over(
    by: Reclamation,
    document: &Document,
    shape: Shape,
    nodes: [u32; 4],
) -> Result<Setting, ShapeFault>
    requires { have_slots shape nodes (length shape.kinds) ≡ true }
    ensures { result ≡ or_fault (rest_fault document.now) (setting_with by document.now shape nodes) }
{
    match Setting::of(by, shape, document.first, document.last, nodes) {
        Ok(setting) => {
            if fuel_fits(document.fuel) {
                Ok(setting)
            } else {
                Err(whole_fault(7))
            }
        }
        Err(_) => Err(whole_fault(6)),
    }
}

/// The setting of a document under a scheme, or the first of its settings that is out of its range.
#[tactic(auto, using(crate::proofs::Settings::setting_roomy, crate::proofs::Settings::setting_fine, crate::proofs::Settings::setting_crowded, crate::proofs::Settings::setting_shapeless))]
pub(crate) fn setting_of(by: Reclamation, document: &Document) -> Result<Setting, ShapeFault>
    requires kinds { length document.now.text.kinds ≤ 4 }
    requires nodes { length document.now.text.nodes < 2 ^ 32 }
    ensures { result ≡ or_fault (setting_fault document.now) (setting_under by document.now) }
{
    let shape = shape_of(document)?;
    let slots = padded(document.slots.items());
    let nodes = kind_nodes(document.text.nodes.items());
    match nodes_fault(&slots[..document.text.kinds.items().len()], &nodes) {
        None => setting_over(by, document, shape, nodes),
        Some(fault) => Err(fault),
    }
}
