//! A table of the fields of a target, computed once.

ghost use Rattle.std.specs.Prelude.{◌≡◌, ◌<◌, ℕ, slice_index};
ghost use Rattle.norm_lang.specs.KindFields.{place_of};
ghost use Rattle.caller_parts.specs.KindCounts.{field_count};
ghost use Rattle.caller_parts.specs.FieldTables.{IsFieldTable};

use norm_lang::fields::{count_of, place_of};
use norm_lang::text::FieldDecl;

/// Where each of the first sixteen fields stands among those of its kind, and how many fields each of four kinds has.
#[derive(Clone, Copy)]
pub struct FieldTable {
    pub places: [u8; 16],
    pub counts: [usize; 4],
}

#[tactic(auto, using(crate::proofs::Tables::one_more, crate::proofs::Tables::place_small))]
fn places(fields: &[FieldDecl]) -> [u8; 16]
    ensures { (f : ℕ) → f < 16 → slice_index result f ≡ place_of fields.now f }
{
    let mut places = [0; 16];
    for field in 0..16 {
        places[field] = place_of(fields, field as u8) as u8;
    }
    places
}

#[tactic(auto, using(crate::proofs::Tables::one_more))]
fn counts(fields: &[FieldDecl]) -> [usize; 4]
    ensures { (t : ℕ) → t < 4 → slice_index result t ≡ field_count fields.now t }
{
    let mut counts = [0; 4];
    for kind in 0..4 {
        counts[kind] = count_of(fields, kind as u8);
    }
    counts
}

impl FieldTable {
    /// The table of these fields.
    pub fn of(fields: &[FieldDecl]) -> FieldTable
        ensures { IsFieldTable fields.now result }
    {
        FieldTable {
            places: places(fields),
            counts: counts(fields),
        }
    }
}
