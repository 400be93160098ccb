//! Whether erasing a method of a target gives a method of a text.

ghost use Rattle.std.specs.Prelude.{◌≡◌, None, IfOk, option_copied};
ghost use Rattle.std.specs.Bool.{Decides};
ghost use Rattle.norm_lang.specs.declared.text.Instr.TheVariants.{Cas, Jump, IfEq, IfLess, IfMarked, Commit};
ghost use Rattle.target_code.specs.Erasing.{redirected, plain_code, erased_code};
ghost use Rattle.barrier_check.specs.SourcePlaces.{place_by};
ghost use Rattle.barrier_check.specs.SourceCode.{Leaves};
ghost use Rattle.barrier_check.specs.Contents.{content_of};

use crate::content::content_of;
use crate::places::Places;
use crate::same::{Same, are_same};
use norm_lang::text::{CasEntry, Instr, Reg};
use std::alloc::{AllocError, Global};
use target_code::target::TargetInstr;

/// Whether an instruction of a text is this exchange, with its jump to this place.
fn is_cas(entry: &CasEntry, place: usize, source: &Instr) -> bool
    ensures { Decides result (Cas entry.now place ≡ source.now) }
{
    matches!(source, Instr::Cas(other, l) if entry.is_same(other) && place == *l as usize)
}

/// Whether an instruction of a text is a jump to this place.
fn is_jump(place: usize, source: &Instr) -> bool
    ensures { Decides result (Jump place ≡ source.now) }
{
    matches!(source, Instr::Jump(l) if place == *l as usize)
}

/// Whether an instruction of a text is this branch, to this place.
fn is_if_equal(a: Reg, b: Reg, place: usize, source: &Instr) -> bool
    ensures { Decides result (IfEq a b place ≡ source.now) }
{
    matches!(source, Instr::IfEq(f, g, l) if (a, b, place) == (*f, *g, *l as usize))
}

/// Whether an instruction of a text is this branch, to this place.
fn is_if_less(a: Reg, b: Reg, place: usize, source: &Instr) -> bool
    ensures { Decides result (IfLess a b place ≡ source.now) }
{
    matches!(source, Instr::IfLess(f, g, l) if (a, b, place) == (*f, *g, *l as usize))
}

/// Whether an instruction of a text is this branch, to this place.
fn is_if_marked(a: Reg, place: usize, source: &Instr) -> bool
    ensures { Decides result (IfMarked a place ≡ source.now) }
{
    matches!(source, Instr::IfMarked(f, l) if (a, place) == (*f, *l as usize))
}

/// Whether an instruction of a text is this commit.
fn is_commit(entries: &[CasEntry], source: &Instr) -> bool
    ensures { Decides result (Commit entries.now ≡ source.now) }
{
    matches!(source, Instr::Commit(others) if are_same(entries, others.items()))
}

/// Whether an instruction that jumps or commits, its jump taken to the place in the source, is that of a text.
fn is_jump_or_commit(places: &Places, instr: &Instr, source: &Instr) -> bool
    ensures { content_of instr.now ≡ None → Decides result (redirected (place_by places.now) instr.now ≡ source.now) }
{
    match instr {
        Instr::Cas(entry, l) => is_cas(entry, places.at(*l), source),
        Instr::Jump(l) => is_jump(places.at(*l), source),
        Instr::IfEq(a, b, l) => is_if_equal(*a, *b, places.at(*l), source),
        Instr::IfLess(a, b, l) => is_if_less(*a, *b, places.at(*l), source),
        Instr::IfMarked(a, l) => is_if_marked(*a, places.at(*l), source),
        Instr::Commit(entries) => is_commit(entries.items(), source),
        _ => false,
    }
}

/// Whether an instruction of a target, its jump taken to the place in the source, is that of a text.
#[tactic(auto, using(crate::proofs::Contents::one_says))]
fn is_redirected(places: &Places, instr: &Instr, source: &Instr) -> bool
    ensures { Decides result (redirected (place_by places.now) instr.now ≡ source.now) }
{
    let Some(content) = content_of(instr) else {
        return is_jump_or_commit(places, instr, source);
    };
    match content_of(source) {
        Some(other) => content.is_same(&other),
        None => false,
    }
}

/// What is left of a text's code after an instruction of a target; none if the code doesn't begin with what is left
/// of the instruction.
fn rest_after<'a>(places: &Places, instr: &TargetInstr, source: &'a [Instr]) -> Option<&'a [Instr]>
    ensures { Leaves (place_by places.now) instr.now source.now (option_copied result) }
{
    match instr {
        TargetInstr::Plain(instr) => {
            let (first, rest) = source.split_first()?;
            if is_redirected(places, instr, first) {
                Some(rest)
            } else {
                None
            }
        }
        TargetInstr::Check | TargetInstr::Guard(_) => Some(source),
    }
}

fn leaves(places: &Places, code: &[TargetInstr], source: &[Instr]) -> bool
    ensures { Decides result (plain_code (place_by places.now) code.now ≡ source.now) }
{
    let mut rest = source;
    for instr in code {
        let Some(after) = rest_after(places, instr, rest) else {
            return false;
        };
        rest = after;
    }
    rest.is_empty()
}

/// Whether erasing a target's method gives a text's, in one pass over both.
pub(crate) fn erases_to(
    alloc: Global,
    code: &[TargetInstr],
    source: &[Instr],
) -> Result<bool, AllocError>
    ensures { IfOk result (λ same. Decides same (erased_code code.now ≡ source.now)) }
{
    let places = Places::of_code(alloc, code)?;
    Ok(leaves(&places, code, source))
}
