//! The slots that a sweep goes through.

ghost use Rattle.std.specs.Prelude.{◌≡◌, ◌≤◌};
ghost use Rattle.oa_words.specs.Words.{slot_range};

use oa_words::shape::Shape;

/// The least of them, which is the last that a sweep comes to.
pub(crate) fn first_slot(shape: &Shape) -> u32
    ensures first { result ≡ (slot_range shape.now).first }
    ensures within { result ≤ shape.now.slots }
{
    shape.kept();
    1
}

/// The greatest of them, from which a sweep goes down.
pub(crate) fn last_slot(shape: &Shape) -> u32
    ensures last { result ≡ (slot_range shape.now).last }
    ensures some { 1 ≤ result }
    ensures few { result ≤ 4096 }
{
    shape.slots()
}
