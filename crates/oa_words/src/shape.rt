//! The shape of the row of words, and the address of each word.

ghost use Rattle.std.specs.Prelude.{◌≡◌, ◌≤◌, ◌<◌, Some, None, IfSome, OnSome, true, ◌&&◌, nat_le, if◌then◌else◌, length, take};
ghost use Rattle.std.specs.List.{list_all};
ghost use Rattle.oa_words.specs.Words.{Phase, Place, Warning, Hazard, Status, FieldOf, Cell, Head, Link, address_of, word_count};
ghost use Rattle.oa_words.specs.SlotKinds.{together, kind_in, slots_of, kind_of};
ghost use Rattle.oa_words.specs.declared.limits.TheConstants.{MOST_SLOTS};
ghost use Rattle.oa_words.specs.Within.{sizes_or_fault, sizes_of_kinds, sizes_of_one, is_count, AreSizes, AreSmall};

use crate::limits::{MOST_CALLERS, MOST_CELLS, MOST_FIELDS, MOST_KINDS, MOST_SLOTS};
use std::marker::Model;

/// How many callers, slots other than 0, fields of a slot, and cells there are, and how many of the slots each kind of nodes has: 1
/// to 8 callers, 1 to 4096 slots, 1 to 4 fields, 1 to 256 cells, and 1 to 4 kinds with at least one slot each.
#[derive(Drop)]
pub struct Shape {
    callers: u32,
    slots: u32,
    fields: u32,
    cells: u32,
    kinds: u32,
    counts: [u64; 4],
}

impl Model for Shape {
    ghost use Rattle.std.specs.Prelude.{take, ◌≤◌};
    ghost use Rattle.oa_words.specs.Words.{Sizes};
    ghost use Rattle.oa_words.specs.Within.{AreSizes, AreSmall};
    ghost use Rattle.oa_words.specs.declared.limits.TheConstants.{TOPS};

    ghost Value = { Sizes };

    ghost view = { λ s. record { callers = s.callers; slots = s.slots; fields = s.fields; cells = s.cells; kinds = take s.kinds s.counts; tops = TOPS } };

    ghost invariant = { λ s.
        AreSizes (record { callers = s.callers; slots = s.slots; fields = s.fields; cells = s.cells; kinds = take s.kinds s.counts; tops = TOPS })
        × AreSmall (record { callers = s.callers; slots = s.slots; fields = s.fields; cells = s.cells; kinds = take s.kinds s.counts; tops = TOPS })
        × (s.kinds ≤ 4) };
}

/// Which number is outside its range.
#[derive(Clone, Copy, Debug, PartialEq, Eq)]
pub enum ShapeFault {
    /// The callers aren't 1 to 8.
    Callers,
    /// The kinds aren't 1 to 4.
    Kinds,
    /// The slots of a kind, or all slots together, aren't 1 to 4096.
    Slots,
    /// The fields aren't 1 to 4.
    Fields,
    /// The cells aren't 1 to 256.
    Cells,
}

/// The number if it is a count from 1 to the most that there may be.
fn counted(most: u32, number: u64) -> Option<u32>
    ensures same { result ≡ (if is_count most number then Some number else None) }
    ensures count { IfSome result (λ count. (count ≡ number) × (1 ≤ count) × (count ≤ most)) }
{
    if 1 <= number && number <= most as u64 {
        return Some(number as u32);
    }
    None
}

/// Whether each kind has a slot, and at most `MOST_SLOTS`.
fn are_counts(counts: &[u64]) -> bool
    ensures { result ≡ list_all (is_count MOST_SLOTS) counts.now }
{
    counts
        .iter()
        .all(|count| 1 <= *count && *count <= MOST_SLOTS)
}

/// The sum of the numbers.
fn sum(counts: &[u64]) -> u64
    requires { together counts.now ≤ 16384 }
    ensures { result ≡ together counts.now }
{
    let mut sum = 0;
    for count in counts {
        sum += *count;
    }
    sum
}

/// The kind of the thing at a place, counted from 1, if so many things of each kind stand in a row.
#[tactic(auto, using(crate::proofs::Counts::ends_at_last, crate::proofs::Counts::ends_within))]
fn kind_in(counts: &[u64], place: u64) -> u32
    requires { length counts.now ≤ 4 }
    ensures { result ≡ kind_in counts.now place }
{
    let mut kind = 0;
    let mut left = place;
    while kind + 1 < counts.len() && counts[kind] < left {
        left -= counts[kind];
        kind += 1;
    }
    kind as u32
}

/// How many slots there are together, if each kind has a slot and at most `MOST_SLOTS`, and all together have no more than that.
#[tactic(auto, using(crate::proofs::Counts::four_together))]
fn slots_together(counts: &[u64]) -> Option<u32>
    requires { length counts.now ≤ 4 }
    ensures same { result ≡ (if list_all (is_count MOST_SLOTS) counts.now && nat_le (together counts.now) MOST_SLOTS then Some (together counts.now) else None) }
    ensures whole { IfSome result (λ slots. (together counts.now ≡ slots) × (slots ≤ MOST_SLOTS)) }
    ensures each { OnSome result (list_all (is_count MOST_SLOTS) counts.now ≡ true) }
{
    if !are_counts(counts) {
        return None;
    }
    let slots = sum(counts);
    if slots > MOST_SLOTS {
        return None;
    }
    Some(slots as u32)
}

impl Shape {
    /// The shape of one kind with these counts.
    ///
    /// # Errors
    /// The first of the counts, in the order of the arguments, that is outside its range.
    pub fn new(callers: u64, slots: u64, fields: u64, cells: u64) -> Result<Shape, ShapeFault>
        ensures { result ≡ sizes_or_fault 1 (sizes_of_one callers slots fields cells) }
    {
        Shape::of_kinds(callers, [slots, 0, 0, 0], 1, fields, cells)
    }

    /// The shape with so many kinds, of which each has as many slots as stand at its place. What stands past the kinds isn't looked at.
    ///
    /// # Errors
    /// The first number that is outside its range, in the order callers, kinds, slots, fields and cells.
    pub fn of_kinds(
        callers: u64,
        slots: [u64; 4],
        kinds: u64,
        fields: u64,
        cells: u64,
    ) -> Result<Shape, ShapeFault>
        ensures { result ≡ sizes_or_fault kinds (sizes_of_kinds callers (take kinds slots) fields cells) }
    {
        let Some(callers) = counted(MOST_CALLERS, callers) else {
            return Err(ShapeFault::Callers);
        };
        let Some(kinds) = counted(MOST_KINDS, kinds) else {
            return Err(ShapeFault::Kinds);
        };
        let Some(slots_of_all) = slots_together(&slots[..kinds as usize]) else {
            return Err(ShapeFault::Slots);
        };
        let Some(fields) = counted(MOST_FIELDS, fields) else {
            return Err(ShapeFault::Fields);
        };
        let Some(cells) = counted(MOST_CELLS, cells) else {
            return Err(ShapeFault::Cells);
        };
        Ok(Shape {
            callers,
            slots: slots_of_all,
            fields,
            cells,
            kinds,
            counts: slots,
        })
    }

    /// What every shape keeps: a law for those who hold one. The body reads a field, which makes the invariant known.
    #[inline(always)]
    pub fn kept(&self)
        ensures sizes { AreSizes self.now }
        ensures small { AreSmall self.now }
    {
        let _ = &self.kinds;
    }

    /// How many callers there are.
    pub fn callers(&self) -> u32
        ensures same { result ≡ self.now.callers }
        ensures some { 1 ≤ result }
        ensures few { result ≤ 8 }
    {
        self.callers
    }

    /// How many slots there are, without slot 0.
    pub fn slots(&self) -> u32
        ensures same { result ≡ self.now.slots }
        ensures some { 1 ≤ result }
        ensures few { result ≤ 4096 }
    {
        self.slots
    }

    /// How many fields each slot has.
    pub fn fields(&self) -> u32
        ensures same { result ≡ self.now.fields }
        ensures some { 1 ≤ result }
        ensures few { result ≤ 4 }
    {
        self.fields
    }

    /// How many cells there are, which hold the roots.
    pub fn cells(&self) -> u32
        ensures same { result ≡ self.now.cells }
        ensures some { 1 ≤ result }
        ensures few { result ≤ 256 }
    {
        self.cells
    }

    /// How many kinds of nodes there are.
    pub fn kinds(&self) -> u32
        ensures same { result ≡ length self.now.kinds }
        ensures some { 1 ≤ result }
        ensures few { result ≤ 4 }
    {
        self.kinds
    }

    /// How many slots a kind has.
    #[tactic(auto, using(crate::proofs::Counts::count_within))]
    pub fn slots_of(&self, kind: u32) -> u32
        requires { kind < length self.now.kinds }
        ensures same { result ≡ slots_of self.now kind }
        ensures some { 1 ≤ result }
        ensures few { result ≤ self.now.slots }
    {
        self.kept();
        self.counts[kind as usize] as u32
    }

    /// The kind of a slot, from 1 to the count of slots: the kinds' slots follow each other, in the kinds' order.
    pub fn kind_of(&self, slot: u32) -> u32
        requires some { 1 ≤ slot }
        requires few { slot ≤ self.now.slots }
        ensures same { result ≡ kind_of self.now slot }
        ensures small { result < length self.now.kinds }
    {
        kind_in(&self.counts[..self.kinds as usize], slot as u64)
    }

    /// The address of the phase.
    pub fn phase_at(&self) -> u32
        ensures { result ≡ address_of self.now Phase }
    {
        0
    }

    /// The address of a caller's place, which says whether the caller has entered.
    pub fn place_at(&self, caller: u32) -> u32
        requires { caller < self.now.callers }
        ensures { result ≡ address_of self.now (Place caller) }
    {
        self.kept();
        1 + caller
    }

    /// The address of a caller's warning: the greatest phase of which it was told (Cohen and Petrank, SPAA 2015).
    pub fn warning_at(&self, caller: u32) -> u32
        requires { caller < self.now.callers }
        ensures { result ≡ address_of self.now (Warning caller) }
    {
        1 + self.callers + caller
    }

    /// The address of the hazard of a caller's register: the slot that the caller guards with it (Michael's hazard
    /// pointers, as Cohen and Petrank use them).
    pub fn hazard_at(&self, caller: u32, register: u32) -> u32
        requires caller { caller < self.now.callers }
        requires register { register < 8 }
        ensures { result ≡ address_of self.now (Hazard caller register) }
    {
        1 + 2 * self.callers + 8 * caller + register
    }

    /// The address of a slot's status.
    pub fn status_at(&self, slot: u32) -> u32
        requires { slot ≤ self.now.slots }
        ensures { result ≡ address_of self.now (Status slot) }
    {
        1 + 10 * self.callers + slot
    }

    /// The address of a slot's field.
    #[tactic(auto, using(crate::proofs::Products::product))]
    pub fn field_at(&self, slot: u32, field: u32) -> u32
        requires slot { slot ≤ self.now.slots }
        requires field { field < self.now.fields }
        ensures { result ≡ address_of self.now (FieldOf slot field) }
    {
        1 + 10 * self.callers + (self.slots + 1) + slot * self.fields + field
    }

    /// The address of a cell.
    #[tactic(auto, using(crate::proofs::Products::product))]
    pub fn cell_at(&self, cell: u32) -> u32
        requires { cell < self.now.cells }
        ensures { result ≡ address_of self.now (Cell cell) }
    {
        1 + 10 * self.callers + (self.slots + 1) + (self.slots + 1) * self.fields + cell
    }

    /// The address of a kind's head, which names the ready slot on top of the chain of that kind's slots.
    #[tactic(auto, using(crate::proofs::Products::product))]
    pub fn head_at(&self, kind: u32) -> u32
        requires { kind < length self.now.kinds }
        ensures { result ≡ address_of self.now (Head kind) }
    {
        self.kept();
        let rows = self.slots + 1;
        let heads = 1 + 10 * self.callers + rows + rows * self.fields + self.cells;
        heads + kind
    }

    /// The address of a slot's link, which names the slot below it in the chain of its kind's ready slots.
    #[tactic(auto, using(crate::proofs::Products::product))]
    pub fn link_at(&self, slot: u32) -> u32
        requires { slot ≤ self.now.slots }
        ensures { result ≡ address_of self.now (Link slot) }
    {
        let (rows, kinds) = (self.slots + 1, self.kinds());
        1 + 10 * self.callers + rows + rows * self.fields + self.cells + kinds + slot
    }

    /// How many words there are.
    #[tactic(auto, using(crate::proofs::Products::product))]
    pub fn word_count(&self) -> u32
        ensures { result ≡ word_count self.now }
    {
        let (rows, kinds) = (self.slots + 1, self.kinds());
        1 + 10 * self.callers + rows + rows * self.fields + self.cells + kinds + rows
    }
}
