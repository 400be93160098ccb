//! The settings of a run, each after its first word.

ghost use Rattle.std.specs.Prelude.{◌≡◌, ◌≤◌, length};
ghost use Rattle.line_words.specs.Answered.{Reads};
ghost use Rattle.documents.specs.TailLines.{is_from, slots_line, fuel_line, phases_line};
ghost use Rattle.documents.specs.TailShown.{slots_shown, phases_shown};

use line_words::fault::Fault;
use line_words::operands::known;
use line_words::words::{Words, value_of};
use norm_lang::text::{Name, Version};

/// The slots of a kind.
#[derive(Clone, Copy)]
pub(crate) struct Slots {
    pub(crate) owner: u8,
    pub(crate) count: u64,
}

/// The first and the last phase.
#[derive(Clone, Copy)]
pub(crate) struct Phases {
    pub(crate) first: u64,
    pub(crate) last: u64,
}

/// Whether a kind is this one or a later one. It is also true if the kind isn't declared, since the line's fault is then that,
/// and not its place.
fn comes_from(next: usize, owner: Option<u8>) -> bool
    ensures { result ≡ is_from next owner }
{
    match owner {
        None => true,
        Some(owner) => next <= owner as usize,
    }
}

/// `slots KIND S`, for this kind or a later one. A line of the first version names no kind.
pub(crate) fn slots_of_kind(
    version: Version,
    kinds: &[Name],
    next: usize,
    words: &mut Words,
) -> Result<Slots, Fault>
    requires few_kinds { length kinds.now ≤ 4 }
    ensures { Reads slots_shown result (slots_line version kinds.now next words.old) }
{
    let owner = words.owner(version, kinds)?;
    let count = words.number()?;
    words.end()?;
    if !comes_from(next, owner) {
        return Err(Fault::Form);
    }
    let count = value_of(count)?;
    let owner = known(owner)?;
    Ok(Slots { owner, count })
}

/// `fuel N`
pub(crate) fn fuel(words: &mut Words) -> Result<u64, Fault>
    ensures { Reads (λ number. number) result (fuel_line words.old) }
{
    let number = words.number()?;
    words.end()?;
    value_of(number)
}

/// `phases F L`
pub(crate) fn both_phases(words: &mut Words) -> Result<Phases, Fault>
    ensures { Reads phases_shown result (phases_line words.old) }
{
    let first = words.number()?;
    let last = words.number()?;
    words.end()?;
    Ok(Phases {
        first: value_of(first)?,
        last: value_of(last)?,
    })
}
