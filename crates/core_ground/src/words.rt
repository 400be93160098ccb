//! The words of a row, in a vector.

ghost use Rattle.std.specs.Prelude.{◌≡◌, ◌≤◌, ◌<◌, ◌++◌, ◌-◌, IfOk, Some, length, map, option_copied, replicate, slice_index};
ghost use Rattle.oa_words.specs.Starts.{status_at_start, link_at_start, start_head, start_statuses, start_rows, start_heads, start_links};
ghost use Rattle.oa_words.specs.Words.{slot_rows};
ghost use Rattle.caller_parts.specs.Settings.{Fits, first_warning};
ghost use Rattle.core_runs.specs.Machine.{value_word, root_word, core_start};
ghost use Rattle.core_runs.specs.core_sound.Sound.{AreLawful};
ghost use Rattle.core_ground.specs.Running.{pair_of};
ghost use Rattle.core_ground.specs.Starts.{home_in, bare_start, start_of, node_row, caller_words, pool_words, slot_words};

use crate::places::{first_ready, home_of, is_filled, node_in, slot_after, slot_or_none};
use crate::port::{Port, answer_to, at_of, left_by};
use crate::running::Runs;
use barrier_check::Barred;
use caller_parts::{Reclamation, Setting};
use norm_lang::list::Listed;
use norm_lang::text::{NodeDecl, RootDecl, Start};
use oa_words::packed::{Kind, head_word, status_word};
use phase_pools::access::Access;
use std::alloc::{AllocError, Global};
use std::marker::Model;

/// The words of a row in a vector, for callers that take turns.
#[derive(Drop)]
pub struct PlainWords {
    words: Listed<u64>,
}

impl Model for PlainWords {
    ghost use Rattle.std.specs.Prelude.{List, ℕ};

    ghost Value = { List ℕ };

    ghost view = { λ w. w.words };
}

fn put_copies(words: &mut Listed<u64>, count: usize, word: u64) -> Result<(), AllocError>
    ensures { IfOk result (λ _. words.new ≡ words.old ++ replicate count word) }
{
    for _ in 0..count {
        words.push(word)?;
    }
    Ok(())
}

/// A first value as a word.
fn value_word(setting: &Setting, start: Start) -> u64
    ensures { result ≡ value_word (home_in setting.now) start }
{
    match start {
        Start::Value(v) => v,
        Start::Node(j) => 2 * home_of(setting, j),
    }
}

fn put_starts(
    words: &mut Listed<u64>,
    setting: &Setting,
    starts: &[Start],
) -> Result<(), AllocError>
    ensures { IfOk result (λ _. words.new ≡ words.old ++ map (value_word (home_in setting.now)) starts.now) }
{
    for start in starts {
        words.push(value_word(setting, *start))?;
    }
    Ok(())
}

/// How many fields of a slot are left after those that a node gives a first value.
fn fields_left(fields: u32, given: usize) -> usize
    ensures { result ≡ fields - given }
{
    (fields as usize).saturating_sub(given)
}

/// The fields of the slot of an initial node.
fn put_node(words: &mut Listed<u64>, setting: &Setting, node: &NodeDecl) -> Result<(), AllocError>
    ensures { IfOk result (λ _. words.new ≡ words.old ++ node_row setting.now (Some node.now)) }
{
    let values = node.values.items();
    let left = fields_left(setting.shape().fields(), values.len());
    put_starts(words, setting, values)?;
    put_copies(words, left, 0)?;
    Ok(())
}

/// The fields of a slot with an initial node, or without one.
fn put_row(
    words: &mut Listed<u64>,
    setting: &Setting,
    node: Option<&NodeDecl>,
) -> Result<(), AllocError>
    ensures { IfOk result (λ _. words.new ≡ words.old ++ node_row setting.now (option_copied node.entry)) }
{
    let fields = setting.shape().fields() as usize;
    match node {
        None => put_copies(words, fields, 0),
        Some(node) => put_node(words, setting, node),
    }
}

fn put_rows(words: &mut Listed<u64>, runs: Runs, setting: &Setting) -> Result<(), AllocError>
    ensures { IfOk result (λ _. words.new ≡ words.old ++ start_rows setting.now.sizes (start_of (pair_of runs.entry).target setting.now) 0 (slot_rows setting.now.sizes)) }
{
    let slots = setting.shape().slots();
    for slot in 0..slots + 1 {
        put_row(words, setting, node_in(runs, setting, slot))?;
    }
    Ok(())
}

fn put_roots(
    words: &mut Listed<u64>,
    setting: &Setting,
    roots: &[RootDecl],
) -> Result<(), AllocError>
    ensures { IfOk result (λ _. words.new ≡ words.old ++ map (root_word (home_in setting.now)) roots.now) }
{
    for root in roots {
        words.push(value_word(setting, root.start))?;
    }
    Ok(())
}

/// The status of a slot at the start: null and the initial nodes' slots are used, all other slots are ready.
fn start_status(setting: &Setting, slot: u32) -> u64
    requires { slot ≤ setting.now.sizes.slots }
    ensures { result ≡ status_at_start setting.now.sizes (bare_start setting.now) slot }
{
    let kind = if is_filled(setting, slot) {
        Kind::Used
    } else {
        Kind::Ready
    };
    status_word(setting.first_phase(), kind)
}

fn put_statuses(words: &mut Listed<u64>, setting: &Setting) -> Result<(), AllocError>
    ensures { IfOk result (λ _. words.new ≡ words.old ++ start_statuses setting.now.sizes (bare_start setting.now) 0 (slot_rows setting.now.sizes)) }
{
    let slots = setting.shape().slots();
    for slot in 0..slots + 1 {
        words.push(start_status(setting, slot))?;
    }
    Ok(())
}

/// The link of a slot at the start: the slot below it in the chain of its kind's ready slots, which is the next greater one, and 0
/// for the last. Null and the slots of the initial nodes are in no chain, and have 0 too.
fn start_link(setting: &Setting, slot: u32) -> u64
    requires { slot ≤ setting.now.sizes.slots }
    ensures { result ≡ link_at_start setting.now.sizes (bare_start setting.now) slot }
{
    if is_filled(setting, slot) {
        0
    } else {
        slot_after(setting, slot) as u64
    }
}

fn put_links(words: &mut Listed<u64>, setting: &Setting) -> Result<(), AllocError>
    ensures { IfOk result (λ _. words.new ≡ words.old ++ start_links setting.now.sizes (bare_start setting.now) 0 (slot_rows setting.now.sizes)) }
{
    let slots = setting.shape().slots();
    for slot in 0..slots + 1 {
        words.push(start_link(setting, slot))?;
    }
    Ok(())
}

/// The head of a kind at the start, with the kind's least slot without an initial node on top.
fn start_head(setting: &Setting, kind: u32) -> u64
    requires { kind < length setting.now.sizes.kinds }
    ensures { result ≡ start_head setting.now.sizes (bare_start setting.now) kind }
{
    setting.shape().kept();
    let top = slot_or_none(setting, kind, first_ready(setting, kind));
    head_word(setting.first_phase(), top)
}

fn put_heads(words: &mut Listed<u64>, setting: &Setting) -> Result<(), AllocError>
    ensures { IfOk result (λ _. words.new ≡ words.old ++ start_heads setting.now.sizes (bare_start setting.now) 0 (length setting.now.sizes.kinds)) }
{
    let kinds = setting.shape().kinds();
    for kind in 0..kinds {
        words.push(start_head(setting, kind))?;
    }
    Ok(())
}

/// The heads of the kinds and the links of slots.
fn put_pool(words: &mut Listed<u64>, setting: &Setting) -> Result<(), AllocError>
    ensures { IfOk result (λ _. words.new ≡ words.old ++ pool_words setting.now) }
{
    put_heads(words, setting)?;
    put_links(words, setting)?;
    Ok(())
}

/// What a caller's warning word holds at the start.
fn first_warning(setting: &Setting) -> u64
    ensures { result ≡ first_warning setting.now.reclamation setting.now.first }
{
    match setting.reclamation() {
        Reclamation::Optimistic => setting.first_phase(),
        Reclamation::Epochs => 0,
    }
}

/// The first phase, and the words of callers.
fn put_callers(words: &mut Listed<u64>, setting: &Setting) -> Result<(), AllocError>
    ensures { IfOk result (λ _. words.new ≡ words.old ++ caller_words setting.now) }
{
    let callers = setting.shape().callers() as usize;
    let first = setting.first_phase();
    words.push(first)?;
    put_copies(words, callers, 0)?;
    put_copies(words, callers, first_warning(setting))?;
    put_copies(words, 8 * callers, 0)?;
    Ok(())
}

/// The words of slots, and the cells.
fn put_slots(words: &mut Listed<u64>, runs: Runs, setting: &Setting) -> Result<(), AllocError>
    ensures { IfOk result (λ _. words.new ≡ words.old ++ slot_words (pair_of runs.entry).target setting.now) }
{
    put_statuses(words, setting)?;
    put_rows(words, runs, setting)?;
    put_roots(words, setting, runs.roots())?;
    Ok(())
}

impl PlainWords {
    /// The words at the start, in the order of their addresses: the phase, places, warnings, hazards, statuses, fields,
    /// cells, the heads and the links. Each is lawful for its address. The setting fits the target.
    ///
    /// # Errors
    /// Memory ran out.
    pub fn new(alloc: Global, barred: &Barred, setting: &Setting) -> Result<PlainWords, AllocError>
        requires { Fits barred.now.target setting.now }
        ensures start { IfOk result (λ words. words ≡ (core_start barred.now.target setting.now).words) }
        ensures lawful { IfOk result (λ words. AreLawful barred.now.target setting.now words) }
    {
        PlainWords::of(alloc, Runs::Barred(barred), setting)
    }

    /// `new` for what callers run.
    ///
    /// # Errors
    /// Memory ran out.
    #[tactic(auto, using(crate::proofs::Starting::words_put))]
    pub fn of(alloc: Global, runs: Runs, setting: &Setting) -> Result<PlainWords, AllocError>
        requires { Fits (pair_of runs).target setting.now }
        ensures start { IfOk result (λ words. words ≡ (core_start (pair_of runs.entry).target setting.now).words) }
        ensures lawful { IfOk result (λ words. AreLawful (pair_of runs.entry).target setting.now words) }
    {
        setting.kept();
        runs.kept();
        let mut words = Listed::empty(alloc);
        put_callers(&mut words, setting)?;
        put_slots(&mut words, runs, setting)?;
        put_pool(&mut words, setting)?;
        Ok(PlainWords { words })
    }

    /// The first word, which is the phase.
    pub fn phase(&self) -> u64
        ensures { result ≡ slice_index self.now 0 }
    {
        self.words.items().first().copied().unwrap_or(0)
    }

    /// The words, in the order of their addresses.
    pub fn words(&self) -> &[u64]
        ensures { result.now ≡ self.now }
    {
        self.words.items()
    }
}

impl Port for PlainWords {
    ghost words = { λ words. words };

    #[tactic(auto, using(crate::proofs::Loading::stays_same))]
    fn access(&mut self, access: Access) -> u64 {
        let at = at_of(access) as usize;
        let found = self.words.items()[at];
        if let Access::Load { .. } = access {
            return found;
        }
        self.words.replace(at, left_by(access, found));
        answer_to(access, found)
    }
}
