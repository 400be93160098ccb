//! What a line after a document's text says, by where it stands.

ghost use Rattle.std.specs.Prelude.{◌≡◌, ◌≤◌, length};
ghost use Rattle.line_words.specs.Answered.{Gives};
ghost use Rattle.documents.specs.DocumentRead.{begins, in_settings, in_calls, in_schedule, in_stage};
ghost use Rattle.documents.specs.TailShown.{tail_shown};

use crate::calls::{call, script};
use crate::limits::MOST_TURNS;
use crate::schedule::turn;
use crate::settings::{both_phases, fuel, slots_of_kind};
use crate::tail::{Stage, Tail};
use line_words::fault::{Fault, Stop};
use line_words::words::{Words, is_reserved};
use std::alloc::Global;

/// The next script, or the schedule.
fn begins(tail: &mut Tail, alloc: Global, word: &[u8], words: &mut Words) -> Result<(), Stop>
    ensures says { Gives (λ _. tail_shown tail.new) result (begins (tail_shown tail.old) word.now words.old) }
    ensures kept { tail.new.text ≡ tail.old.text }
{
    if word == b"script".as_slice() {
        script(tail.script_count(), words)?;
        tail.begin_script(alloc)?;
        Ok(())
    } else if word == b"schedule".as_slice() {
        words.end()?;
        tail.begin_schedule(alloc)?;
        Ok(())
    } else {
        Err(Stop::Fault(Fault::Form))
    }
}

/// A setting that may stand here, or what follows the settings.
fn in_settings(tail: &mut Tail, alloc: Global, word: &[u8], words: &mut Words) -> Result<(), Stop>
    requires few_kinds { length tail.old.text.kinds ≤ 4 }
    ensures says { Gives (λ _. tail_shown tail.new) result (in_settings (tail_shown tail.old) word.now words.old) }
    ensures kept { tail.new.text ≡ tail.old.text }
{
    if word == b"slots".as_slice() && tail.stage.is_after_text() {
        let kinds = tail.text.kinds.items();
        let slots = slots_of_kind(tail.version, kinds, tail.next_kind, words)?;
        tail.set_slots(slots);
        Ok(())
    } else if word == b"phases".as_slice() && tail.stage.is_after_text() {
        let phases = both_phases(words)?;
        tail.first = phases.first;
        tail.last = phases.last;
        tail.stage = Stage::Fuel;
        Ok(())
    } else if word == b"fuel".as_slice() && tail.stage.may_set_fuel() {
        tail.fuel = fuel(words)?;
        tail.stage = Stage::Scripts;
        Ok(())
    } else {
        begins(tail, alloc, word, words)
    }
}

/// A call, or what ends the script.
fn in_calls(
    tail: &mut Tail,
    alloc: Global,
    line: u32,
    word: &[u8],
    words: &mut Words,
) -> Result<(), Stop>
    ensures says { Gives (λ _. tail_shown tail.new) result (in_calls (tail_shown tail.old) line word.now words.old) }
    ensures kept { tail.new.text ≡ tail.old.text }
{
    if is_reserved(word) {
        return begins(tail, alloc, word, words);
    }
    let call = call(alloc, line, tail.script.items().len(), word, words)?;
    tail.script.push(call)?;
    Ok(())
}

/// A turn: at most 100,000.
fn in_schedule(tail: &mut Tail, word: &[u8], words: &mut Words) -> Result<(), Stop>
    ensures says { Gives (λ _. tail_shown tail.new) result (in_schedule (tail_shown tail.old) word.now words.old) }
    ensures kept { tail.new.text ≡ tail.old.text }
{
    let turn = turn(word, words)?;
    if tail.schedule.items().len() >= MOST_TURNS {
        return Err(Stop::Fault(Fault::TooMany));
    }
    tail.schedule.push(turn)?;
    Ok(())
}

/// Adds what a line says, by its number, its first word and the words after it.
pub(crate) fn in_stage(
    tail: &mut Tail,
    alloc: Global,
    line: u32,
    word: &[u8],
    words: &mut Words,
) -> Result<(), Stop>
    requires few_kinds { length tail.old.text.kinds ≤ 4 }
    ensures says { Gives (λ _. tail_shown tail.new) result (in_stage (tail_shown tail.old).stage (tail_shown tail.old) line word.now words.old) }
    ensures kept { tail.new.text ≡ tail.old.text }
{
    match tail.stage {
        Stage::Calls => in_calls(tail, alloc, line, word, words),
        Stage::Turns => in_schedule(tail, word, words),
        _ => in_settings(tail, alloc, word, words),
    }
}
