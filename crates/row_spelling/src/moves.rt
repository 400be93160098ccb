//! Numbers in rows, and what a row has callers do.

ghost use Rattle.std.specs.Prelude.{◌≡◌, ◌∷◌, [], ◌++◌, IfOk};
ghost use Rattle.std.specs.Option.{option_map, option_zip};
ghost use Rattle.row_spelling.specs.Answered.{Gives};
ghost use Rattle.row_spelling.specs.Moves.{words_of, number_in, numbers_in, begun, who_in, deed_in, move_in, moves_in};
ghost use Rattle.row_spelling.specs.declared.moves.Deed.TheVariants.{GoesOn};

use crate::error::RowError;
use std::alloc::{AllocError, Global};

/// The number that a word spells, in digits, or in digits after a plus.
#[tactic(auto, using(crate::proofs::Parsed::parsed))]
pub fn number(digits: &str) -> Option<u64>
    ensures { result ≡ number_in digits.now }
{
    digits.parse::<u64>().ok()
}

fn add_number(numbers: &mut Vec<u64>, number: u64) -> Result<(), AllocError>
    ensures { IfOk result (λ _. numbers.new.items ≡ numbers.old.items ++ (number ∷ [])) }
{
    numbers.push(number)?;
    Ok(())
}

/// Numbers with spaces between.
///
/// # Errors
///
/// `Wrong` if what stands between two spaces, or before the first or after the last, spells no number; `Memory` if memory runs out.
pub fn numbers(alloc: Global, text: &str) -> Result<Vec<u64>, RowError>
    ensures { Gives (λ numbers. numbers.items) result (numbers_in text.now) }
{
    let mut numbers = Vec::new(alloc);
    for digits in text.split(' ') {
        match number(digits) {
            Some(number) => add_number(&mut numbers, number)?,
            None => return Err(RowError::Wrong),
        }
    }
    Ok(numbers)
}

/// One of the row's callers.
#[derive(Clone, Copy)]
pub enum Who {
    First,
    Second,
}

/// What a caller does.
#[derive(Clone, Copy)]
pub enum Deed {
    /// It begins a call: that of this operation with an argument, or that at this index of its script with a budget.
    Begins { call: u64, with: u64 },
    /// It goes on by so many steps.
    GoesOn(u64),
}

fn begins_in(call: &str, with: &str) -> Option<Deed>
    ensures { result ≡ begun (number_in call.now) (number_in with.now) }
{
    let call = number(call)?;
    let with = number(with)?;
    Some(Deed::Begins { call, with })
}

fn goes_on_in(digits: &str) -> Option<Deed>
    ensures { result ≡ option_map GoesOn (number_in digits.now) }
{
    match number(digits) {
        Some(steps) => Some(Deed::GoesOn(steps)),
        None => None,
    }
}

/// What a verb with numbers says that a caller does.
fn deed_of(verb: &str, numbers: &str, begins: &str, goes_on: &str) -> Option<Deed>
    ensures { result ≡ deed_in begins.now goes_on.now (verb.now ∷ words_of numbers.now) }
{
    match numbers.split_once(' ') {
        Some((call, with)) => {
            if verb == begins {
                begins_in(call, with)
            } else {
                None
            }
        }
        None => {
            if verb == goes_on {
                goes_on_in(numbers)
            } else {
                None
            }
        }
    }
}

fn deed_in(words: &str, begins: &str, goes_on: &str) -> Option<Deed>
    ensures { result ≡ deed_in begins.now goes_on.now (words_of words.now) }
{
    match words.split_once(' ') {
        Some((verb, numbers)) => deed_of(verb, numbers, begins, goes_on),
        None => None,
    }
}

fn who_in(word: &str) -> Option<Who>
    ensures { result ≡ who_in word.now }
{
    match word {
        "first" => Some(Who::First),
        "second" => Some(Who::Second),
        _ => None,
    }
}

/// Who it is, and what the words after it say that they do.
fn move_of(word: &str, words: &str, begins: &str, goes_on: &str) -> Option<(Who, Deed)>
    ensures { result ≡ option_zip (who_in word.now) (deed_in begins.now goes_on.now (words_of words.now)) }
{
    let who = who_in(word)?;
    let deed = deed_in(words, begins, goes_on)?;
    Some((who, deed))
}

/// Who does what.
fn move_in(text: &str, begins: &str, goes_on: &str) -> Option<(Who, Deed)>
    ensures { result ≡ move_in begins.now goes_on.now text.now }
{
    match text.split_once(' ') {
        Some((word, words)) => move_of(word, words, begins, goes_on),
        None => None,
    }
}

fn add_move(moves: &mut Vec<(Who, Deed)>, next: (Who, Deed)) -> Result<(), AllocError>
    ensures { IfOk result (λ _. moves.new.items ≡ moves.old.items ++ (next ∷ [])) }
{
    moves.push(next)?;
    Ok(())
}

/// The moves of a row that says by these two verbs that a caller begins a call, and that it goes on.
///
/// # Errors
///
/// `Wrong` if what stands between two `, `, or before the first or after the last, says no move; `Memory` if memory runs out.
pub fn moves_in(
    alloc: Global,
    text: &str,
    begins: &str,
    goes_on: &str,
) -> Result<Vec<(Who, Deed)>, RowError>
    ensures { Gives (λ moves. moves.items) result (moves_in begins.now goes_on.now text.now) }
{
    let mut moves = Vec::new(alloc);
    for part in text.split(", ") {
        match move_in(part, begins, goes_on) {
            Some(next) => add_move(&mut moves, next)?,
            None => return Err(RowError::Wrong),
        }
    }
    Ok(moves)
}
