//! The lines of a method, each after its first word: the instruction, or the line's first fault. Each reads the line's
//! form first, and then judges its numbers, the kinds, fields and roots it names, and the limits.
//!
//! Under `# Errors` each lists the faults that its line may have, in the order in which it judges them, and answers the
//! first that the line has: `Form` if the words are others, `Number` if a number exceeds 2^64 - 1, `UnknownName` if the
//! kind, the field or the root isn't declared, `TooMany` if a limit is passed: 65,535 for the number L of an instruction,
//! and for others what the reader's first line tells.

ghost use Rattle.std.specs.Prelude.{◌≤◌, length};
ghost use Rattle.norm_lang.specs.Instructions.{set_line, mov_line, add_line, sub_line, rem_line, null_line, mark_line, unmark_line, load_root_line, pick_line, load_field_line, new_line, put_line, cas_line, casroot_line, jump_line, ifeq_line, ifless_line, ifmarked_line, commit_line, Commits, return_line, returnnone_line, again_line, with_line, withroot_line};
ghost use Rattle.line_words.specs.Answered.{Reads};

use line_words::fault::Fault;
use line_words::operands::{
    field_number, known, last_target, one_register, retired, root_number, target, three_registers,
    two_registers,
};
use line_words::words::{Words, up_to, value_of};
use norm_lang::limits::{MOST_ENTRIES, MOST_PICKED};
use norm_lang::text::{CasEntry, FieldDecl, Instr, Name, Place, RootDecl, Version};

/// `set D 17`
///
/// # Errors
///
/// `Form`, `Number`.
pub fn set(mut words: Words) -> Result<Instr, Fault>
    ensures { Reads (λ i. i) result (set_line words.entry) }
{
    let d = words.register()?;
    let n = words.number()?;
    words.end()?;
    Ok(Instr::Set(d, value_of(n)?))
}

/// `mov D A`
///
/// # Errors
///
/// `Form`.
pub fn mov(words: Words) -> Result<Instr, Fault>
    ensures { Reads (λ i. i) result (mov_line words.entry) }
{
    let (d, a) = two_registers(words)?;
    Ok(Instr::Mov(d, a))
}

/// `add D A B`
///
/// # Errors
///
/// `Form`.
pub fn add(words: Words) -> Result<Instr, Fault>
    ensures { Reads (λ i. i) result (add_line words.entry) }
{
    let (d, a, b) = three_registers(words)?;
    Ok(Instr::Add(d, a, b))
}

/// `sub D A B`
///
/// # Errors
///
/// `Form`.
pub fn sub(words: Words) -> Result<Instr, Fault>
    ensures { Reads (λ i. i) result (sub_line words.entry) }
{
    let (d, a, b) = three_registers(words)?;
    Ok(Instr::Sub(d, a, b))
}

/// `rem D A 8`: the literal is at least 1.
///
/// # Errors
///
/// `Form`, also if the literal is 0; `Number`.
pub fn rem(mut words: Words) -> Result<Instr, Fault>
    ensures { Reads (λ i. i) result (rem_line words.entry) }
{
    let d = words.register()?;
    let a = words.register()?;
    let n = words.positive()?;
    words.end()?;
    Ok(Instr::Rem(d, a, value_of(n)?))
}

/// `null D`
///
/// # Errors
///
/// `Form`.
pub fn null(words: Words) -> Result<Instr, Fault>
    ensures { Reads (λ i. i) result (null_line words.entry) }
{
    Ok(Instr::Null(one_register(words)?))
}

/// `mark D A`
///
/// # Errors
///
/// `Form`.
pub fn mark(words: Words) -> Result<Instr, Fault>
    ensures { Reads (λ i. i) result (mark_line words.entry) }
{
    let (d, a) = two_registers(words)?;
    Ok(Instr::Mark(d, a))
}

/// `unmark D A`
///
/// # Errors
///
/// `Form`.
pub fn unmark(words: Words) -> Result<Instr, Fault>
    ensures { Reads (λ i. i) result (unmark_line words.entry) }
{
    let (d, a) = two_registers(words)?;
    Ok(Instr::Unmark(d, a))
}

/// `root D X`
///
/// # Errors
///
/// `Form`, `UnknownName`.
pub fn load_root(roots: &[RootDecl], mut words: Words) -> Result<Instr, Fault>
    requires { length roots.now ≤ 256 }
    ensures { Reads (λ i. i) result (load_root_line roots.now words.entry) }
{
    let d = words.register()?;
    let x = words.name()?;
    words.end()?;
    Ok(Instr::LoadRoot(d, root_number(roots, x)?))
}

/// `pick D X 8 A`: the literal is 1 to 256.
///
/// # Errors
///
/// `Form`, also if the literal is 0; `Number`, `UnknownName`, `TooMany`.
pub fn pick(roots: &[RootDecl], mut words: Words) -> Result<Instr, Fault>
    requires { length roots.now ≤ 256 }
    ensures { Reads (λ i. i) result (pick_line roots.now words.entry) }
{
    let d = words.register()?;
    let x = words.name()?;
    let n = words.positive()?;
    let a = one_register(words)?;
    let n = value_of(n)?;
    let root = root_number(roots, x)?;
    let count = up_to(MOST_PICKED, n)?;
    Ok(Instr::LoadPick(d, root, count as u16, a))
}

/// `load D A F`
///
/// # Errors
///
/// `Form`, `UnknownName`.
pub fn load_field(fields: &[FieldDecl], mut words: Words) -> Result<Instr, Fault>
    requires { length fields.now ≤ 16 }
    ensures { Reads (λ i. i) result (load_field_line fields.now words.entry) }
{
    let d = words.register()?;
    let a = words.register()?;
    let f = words.name()?;
    words.end()?;
    Ok(Instr::LoadField(d, a, field_number(fields, f)?))
}

/// `new D KIND`; a line of the first version names no kind.
///
/// # Errors
///
/// `Form`, `UnknownName`.
pub fn fresh(version: Version, kinds: &[Name], mut words: Words) -> Result<Instr, Fault>
    requires { length kinds.now ≤ 4 }
    ensures { Reads (λ i. i) result (new_line version kinds.now words.entry) }
{
    let d = words.register()?;
    let owner = words.owner(version, kinds)?;
    words.end()?;
    Ok(Instr::New(d, known(owner)?))
}

/// `put A F B`
///
/// # Errors
///
/// `Form`, `UnknownName`.
pub fn put(fields: &[FieldDecl], mut words: Words) -> Result<Instr, Fault>
    requires { length fields.now ≤ 16 }
    ensures { Reads (λ i. i) result (put_line fields.now words.entry) }
{
    let a = words.register()?;
    let f = words.name()?;
    let b = one_register(words)?;
    Ok(Instr::Put(a, field_number(fields, f)?, b))
}

/// `cas A F B D L`, and maybe `retire R`.
///
/// # Errors
///
/// `Form`, `Number`, `UnknownName`, `TooMany`.
pub fn cas(fields: &[FieldDecl], mut words: Words) -> Result<Instr, Fault>
    requires { length fields.now ≤ 16 }
    ensures { Reads (λ i. i) result (cas_line fields.now words.entry) }
{
    let a = words.register()?;
    let f = words.name()?;
    let expected = words.register()?;
    let replacement = words.register()?;
    let l = words.number()?;
    let retire = retired(words)?;
    let l = value_of(l)?;
    let place = Place::Field(a, field_number(fields, f)?);
    let target = target(l)?;
    let entry = CasEntry {
        place,
        expected,
        replacement,
        retire,
    };
    Ok(Instr::Cas(entry, target))
}

/// `casroot X B D L`, and maybe `retire R`.
///
/// # Errors
///
/// `Form`, `Number`, `UnknownName`, `TooMany`.
pub fn cas_root(roots: &[RootDecl], mut words: Words) -> Result<Instr, Fault>
    requires { length roots.now ≤ 256 }
    ensures { Reads (λ i. i) result (casroot_line roots.now words.entry) }
{
    let x = words.name()?;
    let expected = words.register()?;
    let replacement = words.register()?;
    let l = words.number()?;
    let retire = retired(words)?;
    let l = value_of(l)?;
    let place = Place::Root(root_number(roots, x)?);
    let target = target(l)?;
    let entry = CasEntry {
        place,
        expected,
        replacement,
        retire,
    };
    Ok(Instr::Cas(entry, target))
}

/// `jump L`
///
/// # Errors
///
/// `Form`, `Number`, `TooMany`.
pub fn jump(words: Words) -> Result<Instr, Fault>
    ensures { Reads (λ i. i) result (jump_line words.entry) }
{
    Ok(Instr::Jump(last_target(words)?))
}

/// `ifeq A B L`
///
/// # Errors
///
/// `Form`, `Number`, `TooMany`.
pub fn if_equal(mut words: Words) -> Result<Instr, Fault>
    ensures { Reads (λ i. i) result (ifeq_line words.entry) }
{
    let a = words.register()?;
    let b = words.register()?;
    Ok(Instr::IfEq(a, b, last_target(words)?))
}

/// `ifless A B L`
///
/// # Errors
///
/// `Form`, `Number`, `TooMany`.
pub fn if_less(mut words: Words) -> Result<Instr, Fault>
    ensures { Reads (λ i. i) result (ifless_line words.entry) }
{
    let a = words.register()?;
    let b = words.register()?;
    Ok(Instr::IfLess(a, b, last_target(words)?))
}

/// `ifmarked A L`
///
/// # Errors
///
/// `Form`, `Number`, `TooMany`.
pub fn if_marked(mut words: Words) -> Result<Instr, Fault>
    ensures { Reads (λ i. i) result (ifmarked_line words.entry) }
{
    let a = words.register()?;
    Ok(Instr::IfMarked(a, last_target(words)?))
}

/// `commit K`: the count of entry lines that follow, at most 4.
///
/// # Errors
///
/// `Form`, `Number`, `TooMany`.
pub fn commit(mut words: Words) -> Result<u8, Fault>
    ensures { Reads (λ k. Commits k) result (commit_line words.entry) }
{
    let k = words.number()?;
    words.end()?;
    Ok(up_to(MOST_ENTRIES, value_of(k)?)? as u8)
}

/// `return A`
///
/// # Errors
///
/// `Form`.
pub fn return_number(words: Words) -> Result<Instr, Fault>
    ensures { Reads (λ i. i) result (return_line words.entry) }
{
    Ok(Instr::Return(one_register(words)?))
}

/// `returnnone`
///
/// # Errors
///
/// `Form`.
pub fn return_none(mut words: Words) -> Result<Instr, Fault>
    ensures { Reads (λ i. i) result (returnnone_line words.entry) }
{
    words.end()?;
    Ok(Instr::ReturnNone)
}

/// `again`
///
/// # Errors
///
/// `Form`.
pub fn again(mut words: Words) -> Result<Instr, Fault>
    ensures { Reads (λ i. i) result (again_line words.entry) }
{
    words.end()?;
    Ok(Instr::Again)
}

/// `with A F B D`, and maybe `retire R`.
///
/// # Errors
///
/// `Form`, `UnknownName`.
pub fn field_entry(fields: &[FieldDecl], mut words: Words) -> Result<CasEntry, Fault>
    requires { length fields.now ≤ 16 }
    ensures { Reads (λ entry. entry) result (with_line fields.now words.entry) }
{
    let a = words.register()?;
    let f = words.name()?;
    let expected = words.register()?;
    let replacement = words.register()?;
    let retire = retired(words)?;
    Ok(CasEntry {
        place: Place::Field(a, field_number(fields, f)?),
        expected,
        replacement,
        retire,
    })
}

/// `withroot X B D`, and maybe `retire R`.
///
/// # Errors
///
/// `Form`, `UnknownName`.
pub fn root_entry(roots: &[RootDecl], mut words: Words) -> Result<CasEntry, Fault>
    requires { length roots.now ≤ 256 }
    ensures { Reads (λ entry. entry) result (withroot_line roots.now words.entry) }
{
    let x = words.name()?;
    let expected = words.register()?;
    let replacement = words.register()?;
    let retire = retired(words)?;
    Ok(CasEntry {
        place: Place::Root(root_number(roots, x)?),
        expected,
        replacement,
        retire,
    })
}
