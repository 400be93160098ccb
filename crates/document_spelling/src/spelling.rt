//! The canonical spelling of a document.

ghost use Rattle.std.specs.Prelude.{◌≡◌, ◌++◌, OnOk, IfOk, map, slice_index, false};
ghost use Rattle.std.specs.List.{flat_map};
ghost use Rattle.norm_lang.specs.Spelling.{line_bytes};
ghost use Rattle.document_spelling.specs.Spelling.{slots_lines, setting_lines, spelled_call, script_lines, scripts_lines, step_kind_word, spelled_turn, schedule_lines, document_spelling};

use documents::{Document, Script, ScriptCall};
use norm_lang::list::Listed;
use norm_lang::show;
use norm_lang::spelling::{put_line, put_numbers};
use norm_lang::text::{ByteText, Name};
use norm_lang::word::Word::{Bytes, Number};
use schedule_turns::{StepKind, Turn};
use std::alloc::{AllocError, Global};

/// The slots of a kind: 0 if none are stated.
fn slots_of(slots: &[u64], kind: usize) -> u64
    ensures { result ≡ slice_index slots.now kind }
{
    match slots.get(kind) {
        None => 0,
        Some(count) => *count,
    }
}

fn put_slots(
    alloc: Global,
    out: &mut Vec<u8>,
    kinds: &[Name],
    slots: &[u64],
) -> Result<(), AllocError>
    ensures { OnOk result (out.new.items ≡ out.old.items ++ flat_map line_bytes (slots_lines 0 kinds.now slots.now)) }
{
    for (kind, name) in kinds.iter().enumerate() {
        let words = [Bytes(name.items()), Number(slots_of(slots, kind))];
        put_line(alloc, out, b"slots", &words)?;
    }
    Ok(())
}

fn put_settings(alloc: Global, out: &mut Vec<u8>, document: &Document) -> Result<(), AllocError>
    ensures { OnOk result (out.new.items ≡ out.old.items ++ flat_map line_bytes (setting_lines document.now)) }
{
    put_slots(
        alloc,
        out,
        document.text.kinds.items(),
        document.slots.items(),
    )?;
    let phases = [Number(document.first), Number(document.last)];
    put_line(alloc, out, b"phases", &phases)?;
    put_line(alloc, out, b"fuel", &[Number(document.fuel)])
}

fn put_call(alloc: Global, out: &mut Vec<u8>, call: &ScriptCall) -> Result<(), AllocError>
    ensures { OnOk result (out.new.items ≡ out.old.items ++ line_bytes (spelled_call call.now)) }
{
    out.extend_from_slice(call.name.items())?;
    put_numbers(alloc, out, call.args.items())?;
    out.push(b'\n')?;
    Ok(())
}

fn put_calls(alloc: Global, out: &mut Vec<u8>, calls: &[ScriptCall]) -> Result<(), AllocError>
    ensures { OnOk result (out.new.items ≡ out.old.items ++ flat_map line_bytes (map spelled_call calls.now)) }
{
    for call in calls {
        put_call(alloc, out, call)?;
    }
    Ok(())
}

fn put_script(
    alloc: Global,
    out: &mut Vec<u8>,
    number: usize,
    calls: &[ScriptCall],
) -> Result<(), AllocError>
    ensures { OnOk result (out.new.items ≡ out.old.items ++ flat_map line_bytes (script_lines number calls.now)) }
{
    put_line(alloc, out, b"script", &[Number(number as u64)])?;
    put_calls(alloc, out, calls)
}

fn put_scripts(alloc: Global, out: &mut Vec<u8>, scripts: &[Script]) -> Result<(), AllocError>
    ensures { OnOk result (out.new.items ≡ out.old.items ++ flat_map line_bytes (scripts_lines 0 scripts.now)) }
{
    for (number, script) in scripts.iter().enumerate() {
        put_script(alloc, out, number, script.items())?;
    }
    Ok(())
}

fn step_kind_word(kind: StepKind) -> &'static [u8]
    ensures { result.now ≡ step_kind_word kind }
{
    match kind {
        StepKind::Load => b"load",
        StepKind::Check => b"check",
        StepKind::Exchange => b"exchange",
    }
}

fn put_turn(alloc: Global, out: &mut Vec<u8>, turn: Turn) -> Result<(), AllocError>
    ensures { OnOk result (out.new.items ≡ out.old.items ++ line_bytes (spelled_turn turn)) }
{
    match turn {
        Turn::Step { caller, count } => {
            let words = [Number(caller as u64), Number(count as u64)];
            put_line(alloc, out, b"step", &words)
        }
        Turn::Upto {
            caller,
            kind,
            count,
        } => {
            let kind = Bytes(step_kind_word(kind));
            let words = [Number(caller as u64), kind, Number(count as u64)];
            put_line(alloc, out, b"upto", &words)
        }
        Turn::Ops { caller, count } => {
            let words = [Number(caller as u64), Number(count as u64)];
            put_line(alloc, out, b"op", &words)
        }
    }
}

fn put_turns(alloc: Global, out: &mut Vec<u8>, schedule: &[Turn]) -> Result<(), AllocError>
    ensures { OnOk result (out.new.items ≡ out.old.items ++ flat_map line_bytes (map spelled_turn schedule.now)) }
{
    for turn in schedule {
        put_turn(alloc, out, *turn)?;
    }
    Ok(())
}

/// The schedule, if there are turns.
fn put_schedule(alloc: Global, out: &mut Vec<u8>, schedule: &[Turn]) -> Result<(), AllocError>
    ensures { OnOk result (out.new.items ≡ out.old.items ++ flat_map line_bytes (schedule_lines false schedule.now)) }
{
    if schedule.is_empty() {
        return Ok(());
    }
    put_line(alloc, out, b"schedule", &[])?;
    put_turns(alloc, out, schedule)
}

/// The canonical spelling of a document, in version 2: its text, `slots` for each kind, `phases`, `fuel`, the scripts, and the
/// schedule if it has turns, with one space between words, numbers in decimal and a newline after each line. The text that a
/// `use` line named is written out. For a document that `read_document` answered, the same document is read of it again, but for
/// the lines of its calls: see `spellings_are_read`.
///
/// # Errors
///
/// `AllocError` if memory runs out.
pub fn show_document(alloc: Global, document: &Document) -> Result<ByteText, AllocError>
    ensures { IfOk result (λ bytes. bytes ≡ document_spelling document.now) }
{
    let text = show(alloc, &document.text)?;
    let mut out = Vec::from_slice(alloc, text.items())?;
    put_settings(alloc, &mut out, document)?;
    put_scripts(alloc, &mut out, document.scripts.items())?;
    put_schedule(alloc, &mut out, document.schedule.items())?;
    Ok(Listed::from_vec(out))
}
