//! References, statuses and the pool's head as words.

ghost use Rattle.std.specs.Prelude.{◌≡◌, ◌≤◌, ◌<◌, ◌+◌, ◌*◌, ◌^◌, option_map};
ghost use Rattle.oa_words.specs.Packed.{ref_word, slot_part, is_marked, status_word, status_parts, status_kind_of, kind_number, head_word, head_parts};
ghost use Rattle.oa_words.specs.declared.limits.TheConstants.{TOPS};

use crate::limits::TOPS;

/// What a slot is.
#[derive(Clone, Copy, PartialEq, Eq)]
pub enum Kind {
    /// A claim may take it.
    Ready,
    /// It holds a node, or is held by the caller that claimed it.
    Used,
    /// Its node is unlinked, and a sweep may make it ready.
    Retired,
}

/// The word of a reference to a slot: twice the slot, plus 1 if it is marked. Slot 0 is null.
///
/// The mark in the reference's lowest bit is that of Michael's list (SPAA 2002).
pub fn ref_word(slot: u32, marked: bool) -> u64
    ensures { result ≡ ref_word slot marked }
{
    2 * slot as u64 + if marked { 1 } else { 0 }
}

/// The slot that a reference's word names.
pub fn slot_part(word: u64) -> u64
    ensures { result ≡ slot_part word }
{
    word / 2
}

/// Whether a reference's word has its mark.
pub fn is_marked(word: u64) -> bool
    ensures { result ≡ is_marked word }
{
    word % 2 == 1
}

fn kind_number(kind: Kind) -> u64
    ensures is { result ≡ kind_number kind }
    ensures small { result < 3 }
{
    match kind {
        Kind::Ready => 0,
        Kind::Used => 1,
        Kind::Retired => 2,
    }
}

/// The word of a slot's status: four times the phase, and the number of the kind. The phase is below 2^62.
///
/// A retired slot bears the phase in which it was retired, a ready one that of the sweep that made it ready, as the
/// local pools of Cohen and Petrank (SPAA 2015) are stamped with theirs.
pub fn status_word(phase: u64, kind: Kind) -> u64
    requires { 4 * phase + 4 ≤ 2 ^ 64 }
    ensures { result ≡ status_word phase kind }
{
    4 * phase + kind_number(kind)
}

fn kind_of(number: u64) -> Option<Kind>
    ensures { result ≡ status_kind_of number }
{
    match number {
        0 => Some(Kind::Ready),
        1 => Some(Kind::Used),
        2 => Some(Kind::Retired),
        _ => None,
    }
}

/// The phase and the kind of a status's word; none exactly if the word divided by 4 leaves 3, which is no kind.
pub fn status_parts(word: u64) -> Option<(u64, Kind)>
    ensures { option_map (λ (pair : _). record { phase = pair.0; kind = pair.1 }) result ≡ status_parts word }
{
    let kind = kind_of(word % 4)?;
    Some((word / 4, kind))
}

/// The word of the head of a document's row: 8192 times the phase, and the slot on top, 0 for none. The phase is at most 2^50, and the
/// slot at most 4096.
///
/// The ready slots form the stack of Treiber ("Systems Programming: Coping with Parallelism", IBM Almaden RJ 5118, 1986),
/// whose head is stamped. The stamp is the phase: a slot that was taken from under it is pushed again only under a greater
/// one, so an exchange of the head can't take a slot for one that stayed.
pub fn head_word(phase: u64, top: u32) -> u64
    requires phase { phase ≤ 2 ^ 50 }
    requires top { top ≤ 4096 }
    ensures { result ≡ head_word TOPS phase top }
{
    TOPS * phase + top as u64
}

/// The phase of the head of a document's row, and the slot on top, 0 for none.
pub fn head_parts(word: u64) -> (u64, u64)
    ensures { record { phase = result.0; top = result.1 } ≡ head_parts TOPS word }
{
    (word / TOPS, word % TOPS)
}
