//! What an instruction works on: registers as words, slots, exchanges of a list, cradles.

ghost use Rattle.std.specs.Prelude.{◌≡◌, ◌<◌, ◌≤◌, length, option_copied, slice_get, slice_set, map};
ghost use Rattle.caller_parts.specs.Codes.{code_shown, shown_at};
ghost use Rattle.caller_parts.specs.Operands.{word_in, with_word, slot_in, list_of, is_new_of, kind_made, news_before, cradle_of_kind, cradle_number, has_object, succeeds, to_retire, emptied, with_new, AreSlots};

use crate::code::{Code, Step};
use norm_lang::registers::{
    Reference, Registers, number_at, put_number, put_reference, reference_at,
};
use norm_lang::text::{CasEntry, Instr, Place, Reg};
use oa_words::packed::{is_marked, ref_word, slot_part};

/// The slot that a register names, 0 for null.
#[tactic(auto, using(crate::proofs::Slots::slot_fits))]
pub fn slot_in(registers: &Registers, register: Reg) -> u32
    requires { AreSlots registers.now }
    ensures { result ≡ slot_in registers.now register }
{
    reference_at(registers, register).node as u32
}

/// What a register holds, as a word.
pub fn word_in(registers: &Registers, register: Reg) -> u64
    requires { AreSlots registers.now }
    ensures { result ≡ word_in registers.now register }
{
    match register {
        Reg::Num(_) => number_at(registers, register),
        Reg::Ref(_) => {
            let marked = reference_at(registers, register).marked;
            ref_word(slot_in(registers, register), marked)
        }
    }
}

/// Puts a word into a register, as a number or as a reference.
pub fn put_word(registers: &mut Registers, register: Reg, word: u64)
    ensures { registers.new ≡ with_word registers.old register word }
{
    match register {
        Reg::Num(_) => put_number(registers, register, word),
        Reg::Ref(_) => {
            let reference = Reference {
                node: slot_part(word),
                marked: is_marked(word),
            };
            put_reference(registers, register, reference);
        }
    }
}

fn has_object(place: Place, registers: &Registers) -> bool
    ensures { result ≡ has_object place registers.now }
{
    match place {
        Place::Root(_) => true,
        Place::Field(a, _) => reference_at(registers, a).node != 0,
    }
}

/// Whether an exchange succeeds that found this word.
pub fn succeeds(exchange: &CasEntry, registers: &Registers, word: u64) -> bool
    requires { AreSlots registers.now }
    ensures { result ≡ succeeds exchange.now registers.now word }
{
    has_object(exchange.place, registers) && word == word_in(registers, exchange.expected)
}

/// The slot to retire, 0 for none.
pub fn to_retire(retire: Option<Reg>, registers: &Registers) -> u32
    requires { AreSlots registers.now }
    ensures { result ≡ to_retire retire registers.now }
{
    match retire {
        None => 0,
        Some(r) => slot_in(registers, r),
    }
}

/// The exchanges of a commit, or none.
pub fn list_of<'a>(instr: Option<Step<'a>>) -> &'a [CasEntry]
    ensures { result.now ≡ list_of (shown_at instr.entry) }
{
    match instr {
        Some(Step::Plain(Instr::Commit(exchanges))) => exchanges.items(),
        _ => &[],
    }
}

/// An exchange of a list by its number.
pub fn exchange_at(list: &[CasEntry], k: usize) -> Option<&CasEntry>
    ensures { option_copied result ≡ slice_get list.now k }
{
    list.get(k)
}

/// Whether it is a `new` of a node of a kind.
fn is_new_of(kind: u8, instr: Option<Step>) -> bool
    ensures { result ≡ is_new_of kind (shown_at instr.entry) }
{
    match instr {
        Some(Step::Plain(Instr::New(_, made))) => *made == kind,
        _ => false,
    }
}

/// The kind of the node that a `new` makes; for any other instruction the first.
pub fn kind_made(instr: Option<Step>) -> u8
    ensures { result ≡ kind_made (shown_at instr.entry) }
{
    match instr {
        Some(Step::Plain(Instr::New(_, kind))) => *kind,
        _ => 0,
    }
}

/// How many `new` of a kind stand before a place.
fn news_before(kind: u8, code: Code, at: usize) -> usize
    ensures same { result ≡ news_before kind (code_shown code.entry) at }
    ensures few { result ≤ length (code_shown code.entry) }
{
    let mut count = 0;
    for place in 0..at {
        if is_new_of(kind, code.at(place)) {
            count += 1;
        }
    }
    count
}

/// The number of the cradle that the `new` at a place has.
pub fn cradle_number(code: Code, at: usize) -> usize
    ensures { result ≡ cradle_number (code_shown code.entry) at }
{
    let kind = kind_made(code.at(at));
    4 * kind as usize + news_before(kind, code, at)
}

/// Puts the unmarked reference to a slot into the register that a `new` sets.
pub fn put_new(registers: &mut Registers, instr: Option<Step>, slot: u32)
    ensures { registers.new ≡ with_new (shown_at instr.entry) slot registers.old }
{
    if let Some(Step::Plain(Instr::New(d, _))) = instr {
        let reference = Reference {
            node: slot as u64,
            marked: false,
        };
        put_reference(registers, *d, reference);
    }
}

/// Puts a slot into a cradle.
pub fn put_cradle(cradles: &mut [u32], k: usize, slot: u32)
    ensures { cradles.new ≡ slice_set cradles.old k slot }
{
    if k < cradles.len() {
        cradles[k] = slot;
    }
}

/// Empties each cradle that holds a slot.
#[tactic(auto, using(crate::proofs::Emptying::map_turn))]
pub fn empty_cradles(cradles: &mut [u32; 16], slot: u32)
    ensures { cradles.new ≡ map (emptied slot) cradles.old }
{
    for cradle in cradles.iter_mut() {
        *cradle = emptied(*cradle, slot);
    }
}

fn emptied(cradle: u32, slot: u32) -> u32
    ensures { result ≡ emptied slot cradle }
{
    if cradle == slot { 0 } else { cradle }
}
