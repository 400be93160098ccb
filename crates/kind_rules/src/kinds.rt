//! The kinds of fields, roots and places, and the roots that a pick chooses from.

ghost use Rattle.std.specs.Prelude.{◌≡◌, take, drop};
ghost use Rattle.norm_lang.specs.InstructionRules.{field_kind, root_kind, place_kind};

use norm_lang::text::{FieldDecl, FieldKind, Place, RootDecl};

/// The kind of a field, none if it isn't declared.
pub fn field_kind(fields: &[FieldDecl], field: u8) -> Option<FieldKind>
    ensures { result ≡ field_kind fields.now field }
{
    fields.get(field as usize).map(|field| field.kind)
}

/// The kind of a root, none if it isn't declared.
pub fn root_kind(roots: &[RootDecl], root: u16) -> Option<FieldKind>
    ensures { result ≡ root_kind roots.now root }
{
    roots.get(root as usize).map(|root| root.kind)
}

/// The kind of what a place holds, none if it isn't declared.
pub fn place_kind(fields: &[FieldDecl], roots: &[RootDecl], place: Place) -> Option<FieldKind>
    ensures { result ≡ place_kind fields.now roots.now place }
{
    match place {
        Place::Root(root) => root_kind(roots, root),
        Place::Field(_, field) => field_kind(fields, field),
    }
}

#[tactic(auto, using(crate::proofs::Slices::drop_past))]
fn roots_from(roots: &[RootDecl], first: usize) -> &[RootDecl]
    ensures { result.now ≡ drop first roots.now }
{
    if first >= roots.len() {
        return &[];
    }
    let (_, rest) = roots.split_at(first);
    rest
}

#[tactic(auto, using(crate::proofs::Slices::take_past))]
fn first_roots(roots: &[RootDecl], count: usize) -> &[RootDecl]
    ensures { result.now ≡ take count roots.now }
{
    if count >= roots.len() {
        return roots;
    }
    let (named, _) = roots.split_at(count);
    named
}

/// The declared ones of so many roots from a first one on, from which a pick chooses.
pub fn picked_roots(roots: &[RootDecl], first: u16, count: u16) -> &[RootDecl]
    ensures { result.now ≡ take count (drop first roots.now) }
{
    first_roots(roots_from(roots, first as usize), count as usize)
}
