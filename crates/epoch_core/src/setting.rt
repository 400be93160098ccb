//! The setting of a run under epochs.

ghost use Rattle.std.specs.Prelude.{◌≡◌, ◌≤◌, slice_index};
ghost use Rattle.target_code.specs.Bare.{bare};
ghost use Rattle.caller_parts.specs.KindCounts.{node_counts};
ghost use Rattle.caller_parts.specs.Settings.{IsSetting};
ghost use Rattle.caller_parts.specs.declared.limits.TheConstants.{MOST_PHASES};
ghost use Rattle.epoch_core.specs.Settings.{epoch_setting};

use caller_parts::counts::kind_nodes;
use caller_parts::{Reclamation, Setting};
use norm_check::Normal;
use oa_words::shape::Shape;

/// How many initial nodes each of four kinds of the text has.
#[tactic(auto, using(crate::proofs::Making::few_nodes))]
fn node_counts(normal: &Normal) -> [u32; 4]
    ensures { result ≡ node_counts (bare normal.now) }
{
    kind_nodes(normal.text().nodes.items())
}

/// The setting of epochs with the text's initial nodes. Its numbers are in their ranges.
#[tactic(auto, using(crate::proofs::Making::is_made, crate::proofs::Making::never_refused))]
pub fn setting_of(normal: &Normal, shape: Shape, first_phase: u64, last_phase: u64) -> Setting
    requires setting { IsSetting (epoch_setting normal.now shape first_phase last_phase) }
    requires last { last_phase ≤ MOST_PHASES }
    ensures { result ≡ epoch_setting normal.now shape first_phase last_phase }
{
    let nodes = node_counts(normal);
    match Setting::of(Reclamation::Epochs, shape, first_phase, last_phase, nodes) {
        Ok(setting) => setting,
        Err(_) => unreachable!(),
    }
}

/// How many slots a kind has, or 0 past the kinds.
#[tactic(auto, using(crate::proofs::Making::none_past))]
fn slots_at(shape: &Shape, kind: u32) -> u64
    ensures { result ≡ slice_index shape.now.kinds kind }
{
    if kind < shape.kinds() {
        shape.slots_of(kind) as u64
    } else {
        0
    }
}

/// The same shape.
#[tactic(auto, using(crate::proofs::Making::is_copied, crate::proofs::Making::never_shapeless))]
pub fn copy_of(shape: &Shape) -> Shape
    ensures { result ≡ shape.now }
{
    shape.kept();
    let slots = [
        slots_at(shape, 0),
        slots_at(shape, 1),
        slots_at(shape, 2),
        slots_at(shape, 3),
    ];
    match Shape::of_kinds(
        shape.callers() as u64,
        slots,
        shape.kinds() as u64,
        shape.fields() as u64,
        shape.cells() as u64,
    ) {
        Ok(shape) => shape,
        Err(_) => unreachable!(),
    }
}

/// The setting by which an entry goes: phases from 1 to the last.
pub(crate) fn setting_on(normal: &Normal, shape: &Shape, last_phase: u64) -> Setting
    requires setting { IsSetting (epoch_setting normal.now shape.now 1 last_phase) }
    requires last { last_phase ≤ MOST_PHASES }
    ensures { result ≡ epoch_setting normal.now shape.now 1 last_phase }
{
    setting_of(normal, copy_of(shape), 1, last_phase)
}
