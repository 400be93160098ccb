//! How a row spells a history.

use histories::{Action, Answer, Call};
use std::alloc::{AllocError, Global};

/// Why a row has no answer.
#[derive(Drop)]
pub(crate) enum RowError {
    /// Memory ran out.
    Memory(AllocError),
    /// The row isn't spelled as a row.
    Wrong,
}

impl From<AllocError> for RowError {
    fn from(error: AllocError) -> RowError {
        RowError::Memory(error)
    }
}

/// What the callers share.
#[derive(Clone, Copy)]
enum Kind {
    Set,
    Queue,
}

/// The number that digits are.
fn number(digits: &str) -> Result<u64, RowError> {
    match digits.parse::<u64>() {
        Ok(number) => Ok(number),
        Err(_) => Err(RowError::Wrong),
    }
}

/// What a call of a set asks for.
fn set_action(words: &str) -> Result<Action, RowError> {
    let (name, key) = words.split_once(' ').ok_or(RowError::Wrong)?;
    let key = number(key)?;
    match name {
        "insert" => Ok(Action::Insert(key)),
        "remove" => Ok(Action::Remove(key)),
        "contains" => Ok(Action::Contains(key)),
        _ => Err(RowError::Wrong),
    }
}

/// What a call of a queue asks for.
fn queue_action(words: &str) -> Result<Action, RowError> {
    if words == "dequeue" {
        return Ok(Action::Dequeue);
    }
    match words.strip_prefix("enqueue ") {
        Some(value) => Ok(Action::Enqueue(number(value)?)),
        None => Err(RowError::Wrong),
    }
}

/// What was answered.
fn answer_of(word: &str) -> Result<Answer, RowError> {
    match word {
        "none" => Ok(Answer::Nothing),
        "spent" => Ok(Answer::Spent),
        "full" | "unreached" => Ok(Answer::NoEffect),
        word if word.starts_with("phases ") => Ok(Answer::NoEffect),
        word => Ok(Answer::Number(number(word)?)),
    }
}

/// A call and its answer.
fn call_of(kind: Kind, caller: u32, spelling: &str) -> Result<Call, RowError> {
    let (words, answer) = spelling.split_once(": ").ok_or(RowError::Wrong)?;
    let action = match kind {
        Kind::Set => set_action(words)?,
        Kind::Queue => queue_action(words)?,
    };
    Ok(Call {
        caller,
        action,
        answer: answer_of(answer)?,
    })
}

/// Adds the calls of a caller.
fn add_calls(
    calls: &mut Vec<Call>,
    kind: Kind,
    caller: u32,
    spelling: &str,
) -> Result<(), RowError> {
    for part in spelling.split(", ") {
        let call = call_of(kind, caller, part)?;
        add_call(calls, call)?;
    }
    Ok(())
}

fn add_call(calls: &mut Vec<Call>, call: Call) -> Result<(), AllocError> {
    calls.push(call)?;
    Ok(())
}

fn kind_of(word: &str) -> Result<Kind, RowError> {
    match word {
        "set" => Ok(Kind::Set),
        "queue" => Ok(Kind::Queue),
        _ => Err(RowError::Wrong),
    }
}

/// The calls of all callers, one caller's after another's.
pub(crate) fn history_of(alloc: Global, line: &str) -> Result<Vec<Call>, RowError> {
    let mut calls = Vec::new(alloc);
    let Some((word, scripts)) = line.split_once(" | ") else {
        kind_of(line)?;
        return Ok(calls);
    };
    let kind = kind_of(word)?;
    let mut caller = 0u32;
    for script in scripts.split(" | ") {
        add_calls(&mut calls, kind, caller, script)?;
        caller = caller.saturating_add(1);
    }
    Ok(calls)
}
