//! Accesses to the words of a target, which no caller makes.

ghost use Rattle.std.specs.Prelude.{◌≡◌, length};
ghost use Rattle.caller_parts.specs.Settings.{Fits};
ghost use Rattle.core_ground.specs.Ports.{at_of};

use crate::steps::words_of;
use barrier_check::Barred;
use oa_core::{PlainWords, Port, Setting};
use phase_pools::access::Access;
use row_spelling::{RowError, numbers};
use std::alloc::Global;
use std::fmt::Write;

fn at_in(access: Access) -> u32
    ensures { result ≡ at_of access }
{
    match access {
        Access::Load { at } => at,
        Access::Store { at, .. } => at,
        Access::CompareExchange { at, .. } => at,
        Access::FetchMax { at, .. } => at,
    }
}

/// What an access to one of so many words answers, through the trait.
fn answer<P: Port>(port: &mut P, count: u32, access: Access) -> Option<u64>
    requires { length (P.words port.old) ≡ count }
    ensures { length (P.words port.new) ≡ count }
{
    if at_in(access) < count {
        Some(port.access(access))
    } else {
        None
    }
}

fn access_of(kind: &str, at: u32, words: &[u64]) -> Option<Access> {
    match (kind, words) {
        ("load", []) => Some(Access::Load { at }),
        ("store", [word]) => Some(Access::Store { at, word: *word }),
        ("max", [word]) => Some(Access::FetchMax { at, word: *word }),
        ("exchange", [expected, replacement]) => Some(Access::CompareExchange {
            at,
            expected: *expected,
            replacement: *replacement,
        }),
        _ => None,
    }
}

fn access_at(kind: &str, numbers: &[u64]) -> Option<Access> {
    let (at, words) = numbers.split_first()?;
    match u32::try_from(*at) {
        Ok(at) => access_of(kind, at, words),
        Err(_) => None,
    }
}

fn access_in(alloc: Global, text: &str) -> Result<Access, RowError> {
    let Some((kind, rest)) = text.split_once(' ') else {
        return Err(RowError::Wrong);
    };
    let numbers = numbers(alloc, rest)?;
    access_at(kind, &numbers).ok_or(RowError::Wrong)
}

/// Makes an access, and tells what it finds.
fn add_found(
    words: &mut PlainWords,
    count: u32,
    access: Access,
    out: &mut String,
) -> Result<(), RowError>
    requires { length words.old ≡ count }
    ensures { length words.new ≡ count }
{
    match answer(words, count, access) {
        Some(word) => Ok(write!(out, " {word}")?),
        None => Err(RowError::Wrong),
    }
}

/// Tells all words, in the order of their addresses, as loads find them.
fn add_words(words: &mut PlainWords, count: u32, out: &mut String) -> Result<(), RowError>
    requires { length words.old ≡ count }
    ensures { length words.new ≡ count }
{
    for at in 0..count {
        add_found(words, count, Access::Load { at }, out)?;
    }
    Ok(())
}

/// Makes the access that words spell, and tells what it finds.
fn add_answer(
    alloc: Global,
    words: &mut PlainWords,
    count: u32,
    text: &str,
    out: &mut String,
) -> Result<(), RowError>
    requires { length words.old ≡ count }
    ensures { length words.new ≡ count }
{
    let access = access_in(alloc, text)?;
    add_found(words, count, access, out)
}

/// Tells what accesses find one after another.
fn add_answers(
    alloc: Global,
    words: &mut PlainWords,
    count: u32,
    accesses: &str,
    out: &mut String,
) -> Result<(), RowError>
    requires { length words.old ≡ count }
{
    for text in accesses.split(", ") {
        add_answer(alloc, words, count, text, out)?;
    }
    Ok(out.push('\n')?)
}

/// The words of a target at the start, and what accesses to them find.
pub(crate) fn accesses(
    alloc: Global,
    barred: &Barred,
    setting: &Setting,
    accesses: &str,
    out: &mut String,
) -> Result<(), RowError>
    requires { Fits barred.now.target setting.now }
{
    let mut words = words_of(alloc, barred, setting)?;
    let count = setting.shape().word_count();
    out.push_str("start")?;
    add_words(&mut words, count, out)?;
    out.push_str("\nfound")?;
    add_answers(alloc, &mut words, count, accesses, out)
}
