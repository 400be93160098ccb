//! Where the slots of each kind begin and end, and where the initial nodes stand.

ghost use Rattle.std.specs.Prelude.{◌≡◌, ◌≤◌, ◌<◌, ◌+◌, ◌^◌, length, slice_index, option_copied, option_map, nat_lt};
ghost use Rattle.oa_words.specs.SlotKinds.{first_of, range_of, range_at, kind_of, sum_before};
ghost use Rattle.oa_words.specs.Starts.{first_ready, slot_or_none, start_node};
ghost use Rattle.core_runs.specs.Machine.{node_words};
ghost use Rattle.core_ground.specs.Running.{pair_of};
ghost use Rattle.core_ground.specs.Starts.{home_in, start_of};

use crate::running::Runs;
use caller_parts::Setting;
use norm_lang::text::NodeDecl;

/// The first slot of a kind, and past the kinds one more than the last slot.
#[tactic(auto, using(crate::proofs::Placing::first_none, crate::proofs::Placing::first_more, crate::proofs::Placing::first_few, crate::proofs::Placing::first_whole))]
fn first_of(setting: &Setting, kind: u32) -> u32
    ensures same { result ≡ first_of setting.now.sizes kind }
    ensures few { result ≤ 4097 }
{
    setting.kept();
    setting.limits();
    let shape = setting.shape();
    let mut first = 1;
    for before in 0..kind.min(shape.kinds()) {
        first += shape.slots_of(before);
    }
    first
}

/// The last slot of a kind.
#[tactic(auto, using(crate::proofs::Placing::last_few))]
fn last_of(setting: &Setting, kind: u32) -> u32
    requires { kind < length setting.now.sizes.kinds }
    ensures same { result ≡ (range_of setting.now.sizes kind).last }
    ensures few { result ≤ setting.now.sizes.slots }
{
    setting.kept();
    setting.limits();
    first_of(setting, kind) - 1 + setting.shape().slots_of(kind)
}

/// The kind of a slot; null counts to the first.
#[tactic(auto, using(crate::proofs::Placing::null_kind))]
fn kind_of(setting: &Setting, slot: u32) -> u32
    requires { slot ≤ setting.now.sizes.slots }
    ensures same { result ≡ kind_of setting.now.sizes slot }
    ensures known { result < length setting.now.sizes.kinds }
    ensures few { result < 4 }
{
    setting.kept();
    let shape = setting.shape();
    if slot == 0 { 0 } else { shape.kind_of(slot) }
}

/// How many initial nodes a kind has.
fn nodes_of(setting: &Setting, kind: u32) -> u32
    requires { kind < 4 }
    ensures { result ≡ slice_index setting.now.nodes kind }
{
    setting.nodes()[kind as usize]
}

/// How many initial nodes the kinds before one have.
#[tactic(auto, using(crate::proofs::Placing::none_before, crate::proofs::Placing::nodes_more))]
fn nodes_before(setting: &Setting, kind: u32) -> u64
    requires { kind < 4 }
    ensures same { result ≡ sum_before setting.now.nodes kind }
    ensures few { result ≤ 2 ^ 34 }
{
    let mut nodes = 0;
    for before in 0..kind {
        nodes += nodes_of(setting, before) as u64;
    }
    nodes
}

/// The least slot of a kind without an initial node. It is past the last where each slot has one.
pub(crate) fn first_ready(setting: &Setting, kind: u32) -> u64
    requires { kind < 4 }
    ensures same { result ≡ first_ready (range_of setting.now.sizes kind) (slice_index setting.now.nodes kind) }
{
    nodes_of(setting, kind) as u64 + first_of(setting, kind) as u64
}

/// Whether a slot is null or that of an initial node.
pub(crate) fn is_filled(setting: &Setting, slot: u32) -> bool
    requires { slot ≤ setting.now.sizes.slots }
    ensures { result ≡ nat_lt slot (first_ready (range_at setting.now.sizes slot) (slice_index setting.now.nodes (kind_of setting.now.sizes slot))) }
{
    (slot as u64) < first_ready(setting, kind_of(setting, slot))
}

/// A slot of a kind, 0 past the kind's last.
pub(crate) fn slot_or_none(setting: &Setting, kind: u32, slot: u64) -> u32
    requires { kind < length setting.now.sizes.kinds }
    ensures same { result ≡ slot_or_none (range_of setting.now.sizes kind) slot }
    ensures few { result ≤ 4096 }
{
    setting.kept();
    setting.limits();
    if slot <= last_of(setting, kind) as u64 {
        slot as u32
    } else {
        0
    }
}

/// The next greater slot of the same kind, 0 after the last.
pub(crate) fn slot_after(setting: &Setting, slot: u32) -> u32
    requires { slot ≤ setting.now.sizes.slots }
    ensures { result ≡ slot_or_none (range_at setting.now.sizes slot) (slot + 1) }
{
    slot_or_none(setting, kind_of(setting, slot), slot as u64 + 1)
}

/// The slot of an initial node, by its number: those of a kind stand in the kind's first slots. It is null for 0.
#[tactic(auto, using(crate::proofs::Placing::home_at_last, crate::proofs::Placing::home_within))]
pub(crate) fn home_of(setting: &Setting, node: u32) -> u64
    ensures same { result ≡ home_in setting.now node }
    ensures few { result ≤ 2 ^ 33 }
{
    if node == 0 {
        return 0;
    }
    let nodes = setting.nodes();
    let mut kind = 0;
    let mut left = node;
    while kind + 1 < nodes.len() && nodes[kind] < left {
        left -= nodes[kind];
        kind += 1;
    }
    first_of(setting, kind as u32) as u64 + (left as u64 - 1)
}

/// The initial node in a slot, if there is one.
#[tactic(auto, using(crate::proofs::Placing::begins_before, crate::proofs::Placing::node_none, crate::proofs::Placing::node_found))]
pub(crate) fn node_in<'a>(runs: Runs<'a>, setting: &Setting, slot: u32) -> Option<&'a NodeDecl>
    requires { slot ≤ setting.now.sizes.slots }
    ensures { option_map (node_words (home_in setting.now)) (option_copied result) ≡ start_node setting.now.sizes (start_of (pair_of runs.entry).target setting.now) slot }
{
    setting.kept();
    if slot == 0 {
        return None;
    }
    let kind = kind_of(setting, slot);
    let place = slot - first_of(setting, kind);
    if place >= nodes_of(setting, kind) {
        return None;
    }
    let number = nodes_before(setting, kind) + place as u64;
    runs.nodes().get(number as usize)
}
