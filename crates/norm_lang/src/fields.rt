//! The fields of a kind, and where a field stands among them.

ghost use Rattle.std.specs.Prelude.{◌≡◌, length, take};
ghost use Rattle.norm_lang.specs.KindFields.{fields_of, place_of};

use crate::text::FieldDecl;

/// How many fields are of a kind.
pub fn count_of(fields: &[FieldDecl], owner: u8) -> usize
    ensures { result ≡ length (fields_of owner fields.now) }
{
    fields.iter().filter(|field| field.owner == owner).count()
}

/// How many of the first fields are of a kind.
fn count_before(fields: &[FieldDecl], first: usize, owner: u8) -> usize
    ensures { result ≡ length (fields_of owner (take first fields.now)) }
{
    fields
        .iter()
        .take(first)
        .filter(|field| field.owner == owner)
        .count()
}

/// The place of a field among those of its kind, by the field's number. A field that isn't declared keeps its number.
pub fn place_of(fields: &[FieldDecl], field: u8) -> usize
    ensures { result ≡ place_of fields.now field }
{
    match fields.get(field as usize) {
        None => field as usize,
        Some(declared) => count_before(fields, field as usize, declared.owner),
    }
}
