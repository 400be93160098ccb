//! The words after the first that several lines have: kinds, fields and roots by their names, registers, the place of a
//! jump, and `retire R`.

ghost use Rattle.std.specs.Prelude.{◌≡◌, ◌≤◌, ◌<◌, length, IfSome};
ghost use Rattle.std.specs.List.{position};
ghost use Rattle.std.specs.Str.{bytes_eq};
ghost use Rattle.norm_lang.specs.Bounds.{last_target};
ghost use Rattle.norm_lang.specs.Faults.{unknown_name, or_fault};
ghost use Rattle.norm_lang.specs.LineWords.{kind_named, up_to};
ghost use Rattle.norm_lang.specs.Instructions.{field_named, root_named, one_register, two_registers, three_registers, retire_at, target_at};
ghost use Rattle.line_words.specs.Answered.{Reads};

use crate::fault::Fault;
use crate::words::{Words, up_to, value_of};
use norm_lang::limits::LAST_TARGET;
use norm_lang::text::{FieldDecl, Name, Reg, RootDecl};

fn kind_place(kinds: &[Name], name: &[u8]) -> Option<usize>
    ensures place { result ≡ position (λ kind. bytes_eq kind name.now) kinds.now }
    ensures within { IfSome result (λ place. place < length kinds.now) }
{
    kinds.iter().position(|kind| kind.items() == name)
}

/// The number of the kind so named, if it is declared.
pub fn kind_named(kinds: &[Name], name: &[u8]) -> Option<u8>
    requires { length kinds.now ≤ 4 }
    ensures { result ≡ kind_named kinds.now name.now }
{
    match kind_place(kinds, name) {
        Some(place) => Some(place as u8),
        None => None,
    }
}

/// The kind that a line means, which must be declared.
///
/// # Errors
///
/// `UnknownName` if it isn't declared.
pub fn known(owner: Option<u8>) -> Result<u8, Fault>
    ensures { Reads (λ k. k) result (or_fault unknown_name owner) }
{
    owner.ok_or(Fault::UnknownName)
}

fn field_place(fields: &[FieldDecl], name: &[u8]) -> Option<usize>
    ensures place { result ≡ position (λ field. bytes_eq field.name name.now) fields.now }
    ensures within { IfSome result (λ place. place < length fields.now) }
{
    fields.iter().position(|field| field.name.items() == name)
}

/// The number of the field so named.
///
/// # Errors
///
/// `UnknownName` if no field has the name.
pub fn field_number(fields: &[FieldDecl], name: &[u8]) -> Result<u8, Fault>
    requires { length fields.now ≤ 16 }
    ensures { Reads (λ f. f) result (field_named fields.now name.now) }
{
    match field_place(fields, name) {
        Some(place) => Ok(place as u8),
        None => Err(Fault::UnknownName),
    }
}

fn root_place(roots: &[RootDecl], name: &[u8]) -> Option<usize>
    ensures place { result ≡ position (λ root. bytes_eq root.name name.now) roots.now }
    ensures within { IfSome result (λ place. place < length roots.now) }
{
    roots.iter().position(|root| root.name.items() == name)
}

/// The number of the root so named.
///
/// # Errors
///
/// `UnknownName` if no root has the name.
pub fn root_number(roots: &[RootDecl], name: &[u8]) -> Result<u16, Fault>
    requires { length roots.now ≤ 256 }
    ensures { Reads (λ x. x) result (root_named roots.now name.now) }
{
    match root_place(roots, name) {
        Some(place) => Ok(place as u16),
        None => Err(Fault::UnknownName),
    }
}

/// `R`, and then the end.
///
/// # Errors
///
/// `Form` if the words are others.
pub fn one_register(mut words: Words) -> Result<Reg, Fault>
    ensures { Reads (λ r. r) result (one_register words.entry) }
{
    let a = words.register()?;
    words.end()?;
    Ok(a)
}

/// `R R`, and then the end.
///
/// # Errors
///
/// `Form` if the words are others.
pub fn two_registers(mut words: Words) -> Result<(Reg, Reg), Fault>
    ensures { Reads (λ r. r) result (two_registers words.entry) }
{
    let a = words.register()?;
    let b = one_register(words)?;
    Ok((a, b))
}

/// `R R R`, and then the end.
///
/// # Errors
///
/// `Form` if the words are others.
pub fn three_registers(mut words: Words) -> Result<(Reg, Reg, Reg), Fault>
    ensures { Reads (λ r. (r.0, (r.1, r.2))) result (three_registers words.entry) }
{
    let a = words.register()?;
    let (b, c) = two_registers(words)?;
    Ok((a, b, c))
}

/// The end, or `retire R` and then the end.
///
/// # Errors
///
/// `Form` if the words are others.
pub fn retired(mut words: Words) -> Result<Option<Reg>, Fault>
    ensures { Reads (λ r. r) result (retire_at words.entry) }
{
    match words.word() {
        Err(_) => Ok(None),
        Ok(word) => {
            if word == b"retire".as_slice() {
                Ok(Some(one_register(words)?))
            } else {
                Err(Fault::Form)
            }
        }
    }
}

/// The number of an instruction, to which a jump leads.
///
/// # Errors
///
/// `TooMany` if it exceeds 65,535.
pub fn target(l: u64) -> Result<u16, Fault>
    ensures { Reads (λ l. l) result (up_to last_target l) }
{
    Ok(up_to(LAST_TARGET, l)? as u16)
}

/// `L`, and then the end.
///
/// # Errors
///
/// The first of these: `Form` if the words are others, `Number` if L exceeds 2^64 - 1, `TooMany` if it exceeds 65,535.
pub fn last_target(mut words: Words) -> Result<u16, Fault>
    ensures { Reads (λ l. l) result (target_at words.entry) }
{
    let l = words.number()?;
    words.end()?;
    target(value_of(l)?)
}
