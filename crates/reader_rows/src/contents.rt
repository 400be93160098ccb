//! What a document says besides its text, in one line.

use documents::{Document, Script, ScriptCall};
use schedule_turns::{StepKind, Turn};
use std::alloc::{AllocError, Global};
use std::fmt::Write;

/// The word for a kind of step, after a space.
fn kind_word(kind: StepKind) -> &'static str {
    match kind {
        StepKind::Load => " load",
        StepKind::Check => " check",
        StepKind::Exchange => " exchange",
    }
}

/// Adds a turn, as a schedule spells it.
fn add_turn(out: &mut String, turn: Turn) -> Result<(), AllocError> {
    let (word, caller, kind, count) = match turn {
        Turn::Step { caller, count } => ("step", caller, "", count),
        Turn::Upto {
            caller,
            kind,
            count,
        } => ("upto", caller, kind_word(kind), count),
        Turn::Ops { caller, count } => ("op", caller, "", count),
    };
    write!(out, ", {word} {caller}{kind} {count}")
}

/// Adds a call with its line.
fn add_call(out: &mut String, call: &ScriptCall) -> Result<(), AllocError> {
    write!(out, ", {} ", call.line)?;
    for b in call.name.items() {
        out.push(*b as char)?;
    }
    add_numbers(out, call.args.items())
}

/// Adds numbers, each after a space.
fn add_numbers(out: &mut String, numbers: &[u64]) -> Result<(), AllocError> {
    for number in numbers {
        write!(out, " {number}")?;
    }
    Ok(())
}

/// Adds the scripts with their calls.
fn add_scripts(out: &mut String, scripts: &[Script]) -> Result<(), AllocError> {
    for (i, script) in scripts.iter().enumerate() {
        write!(out, "; script {i}")?;
        add_calls(out, script.items())?;
    }
    Ok(())
}

/// Adds the calls of a script.
fn add_calls(out: &mut String, calls: &[ScriptCall]) -> Result<(), AllocError> {
    for call in calls {
        add_call(out, call)?;
    }
    Ok(())
}

/// Adds the turns of a schedule, after their count.
fn add_turns(out: &mut String, turns: &[Turn]) -> Result<(), AllocError> {
    write!(out, "; turns {}", turns.len())?;
    for turn in turns {
        add_turn(out, *turn)?;
    }
    Ok(())
}

/// Adds the settings, and of the slots those of each kind.
fn add_settings(out: &mut String, document: &Document) -> Result<(), AllocError> {
    out.push_str("slots")?;
    add_numbers(out, document.slots.items())?;
    let Document {
        first,
        last,
        fuel,
        ..
    } = document;
    write!(out, " phases {first} {last} fuel {fuel}")
}

fn add_document(out: &mut String, document: &Document) -> Result<(), AllocError> {
    add_settings(out, document)?;
    add_scripts(out, document.scripts.items())?;
    add_turns(out, document.schedule.items())
}

/// The settings, the scripts with their calls, and the turns.
pub(crate) fn contents(alloc: Global, document: &Document) -> Result<String, AllocError> {
    let mut out = String::new(alloc);
    add_document(&mut out, document)?;
    Ok(out)
}
