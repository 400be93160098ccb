//! The guards of a caller.

ghost use Rattle.std.specs.Prelude.{◌≡◌, ◌<◌, length, slice_get, unwrap_or};
ghost use Rattle.guard_words.specs.Guards.{no_guards, guard_at, is_validated, with_guard, pass_check, passed, passed_at, next_to_clear, least_from, is_spared, is_to_clear, IsRow};

use std::marker::Model;

/// By register 0 to 7: the slot that stands in the register's hazard word, 0 for none, and whether the guard is validated,
/// which is that a check has passed since it was put there.
///
/// A guard protects as a hazard pointer of Michael does: only once the caller has found, after it was published, that what
/// it guards wasn't retired before. With optimistic access that is the check of the warning (Cohen and Petrank, SPAA 2015).
#[derive(Drop)]
pub struct GuardRow {
    slots: [u32; 8],
    validated: [bool; 8],
}

impl Model for GuardRow {
    ghost use Rattle.guard_words.specs.Guards.{Guards, IsRow};

    ghost Value = { Guards };

    ghost view = { λ g. record { slots = g.slots; validated = g.validated } };

    ghost invariant = { λ g. IsRow (record { slots = g.slots; validated = g.validated }) };
}

impl GuardRow {
    /// A row has eight slots and eight flags: a law for those who hold one. The body reads a field, which makes the invariant known.
    pub fn kept(&self)
        ensures { IsRow self.now }
    {
        let _ = &self.slots;
    }

    /// No register has a guard.
    pub fn empty() -> GuardRow
        ensures { result ≡ no_guards }
    {
        GuardRow {
            slots: [0; 8],
            validated: [false; 8],
        }
    }

    /// The slot that the register guards, 0 for none. The register is below 8.
    pub fn slot(&self, register: u32) -> u32
        requires { register < 8 }
        ensures { result ≡ guard_at self.now register }
    {
        self.slots[register as usize]
    }

    /// Whether the register's guard is validated. The register is below 8.
    pub fn is_validated(&self, register: u32) -> bool
        requires { register < 8 }
        ensures { result ≡ is_validated self.now register }
    {
        self.validated[register as usize]
    }

    /// Puts a slot into the register's guard, 0 for none; the guard isn't validated then. The register is below 8.
    pub fn put(&mut self, register: u32, slot: u32)
        requires { register < 8 }
        ensures { self.new ≡ with_guard self.old register slot }
    {
        self.slots[register as usize] = slot;
        self.validated[register as usize] = false;
    }

    /// Validates each guard whose slot isn't 0, after a check that passed.
    pub fn pass_check(&mut self)
        ensures { self.new ≡ pass_check self.old }
    {
        pass(&self.slots, &mut self.validated);
    }

    /// The least register whose slot isn't 0 and which isn't kept; none exactly if there is no such register.
    pub fn next_to_clear(&self, spare_kept: [bool; 8]) -> Option<u32>
        ensures { result ≡ next_to_clear self.now spare_kept }
    {
        least(&self.slots, &spare_kept)
    }
}

/// The slot of a register, 0 past the end.
fn slot_at(slots: &[u32], r: usize) -> u32
    ensures { result ≡ unwrap_or (slice_get slots.now r) 0 }
{
    slots.get(r).copied().unwrap_or(0)
}

/// Whether a register is left out; past the end none is.
fn is_spared(spared: &[bool], r: usize) -> bool
    ensures { result ≡ is_spared spared.now r }
{
    spared.get(r).copied().unwrap_or(false)
}

#[tactic(auto, using(crate::proofs::Passing::passed_one, crate::proofs::Passing::passed_all))]
fn pass(slots: &[u32], flags: &mut [bool])
    requires { length flags.old ≡ length slots.now }
    ensures { flags.new ≡ passed slots.now flags.old }
{
    for r in 0..slots.len() {
        pass_one(slots, flags, r);
    }
}

fn pass_one(slots: &[u32], flags: &mut [bool], r: usize)
    requires { r < length flags.old }
    ensures at { flags.new ≡ passed_at slots.now flags.old r }
    ensures same { length flags.new ≡ length flags.old }
{
    if slot_at(slots, r) != 0 {
        flags[r] = true;
    }
}

fn is_to_clear(slots: &[u32], spared: &[bool], r: usize) -> bool
    ensures { result ≡ is_to_clear slots.now spared.now r }
{
    slot_at(slots, r) != 0 && !is_spared(spared, r)
}

#[tactic(auto, using(crate::proofs::Least::none_here, crate::proofs::Least::found_here, crate::proofs::Least::none_left))]
fn least(slots: &[u32], spared: &[bool]) -> Option<u32>
    requires { length slots.now < 100 }
    ensures { result ≡ least_from (is_to_clear slots.now spared.now) 0 (length slots.now) }
{
    for r in 0..slots.len() {
        if is_to_clear(slots, spared, r) {
            return Some(r as u32);
        }
    }
    None
}
