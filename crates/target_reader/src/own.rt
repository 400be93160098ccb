//! The lines of a target's operations that aren't instructions of the language.

ghost use Rattle.std.specs.Prelude.{◌≡◌, false, map, IfOk};
ghost use Rattle.std.specs.List.{list_any};
ghost use Rattle.std.specs.Str.{bytes_eq};
ghost use Rattle.norm_lang.specs.Declarations.{has_op};
ghost use Rattle.line_words.specs.Answered.{Reads, Gives};
ghost use Rattle.oa_text.specs.Shown.{line_shown};
ghost use Rattle.target_reader.specs.TargetGrammar.{opened, target_op_at, with_added, guarded_at, added_line, in_outside, in_begun_op, in_target_generator, next_target_op, in_target_wrap_up, own_line};
ghost use Rattle.target_reader.specs.OpsShown.{draft_shown, read_or_plain, line_own};

use crate::draft::{OpsDraft, Part};
use line_words::fault::{Fault, Stop};
use line_words::words::{Words, is_reserved, up_to, value_of};
use norm_lang::limits::{MOST_ARGUMENTS, MOST_OPS};
use norm_lang::list::Listed;
use norm_lang::text::Reg;
use oa_text::Line;
use std::alloc::Global;
use target_code::target::{TargetInstr, TargetOp};

fn has_name(ops: &[TargetOp], name: &[u8]) -> bool
    ensures { result ≡ list_any (λ op. bytes_eq op.name name.now) ops.now }
{
    ops.iter().any(|op| op.name.items() == name)
}

#[tactic(auto, using(crate::proofs::Opened::has_opened))]
fn named_op(ops: &[TargetOp], name: &[u8]) -> bool
    ensures { result ≡ has_op (map opened ops.now) name.now }
{
    has_name(ops, name)
}

/// `op NAME A`: at most 16 operations, each with a name of its own, and at most 4 arguments. It has no code yet.
fn op(alloc: Global, ops: &[TargetOp], mut words: Words) -> Result<TargetOp, Stop>
    ensures { Gives (λ op. op) result (target_op_at ops.now words.entry) }
{
    let name = words.name()?;
    let args = words.number()?;
    words.end()?;
    if is_reserved(name) {
        return Err(Stop::Fault(Fault::Form));
    }
    let args = value_of(args)?;
    if named_op(ops, name) {
        return Err(Stop::Fault(Fault::Repeated));
    }
    if ops.len() >= MOST_OPS {
        return Err(Stop::Fault(Fault::TooMany));
    }
    let args = up_to(MOST_ARGUMENTS, args)?;
    Ok(TargetOp {
        name: Listed::from_slice(alloc, name)?,
        args: args as u8,
        generator: Listed::empty(alloc),
        wrapup: Listed::empty(alloc),
    })
}

/// The first operation.
fn in_outside(draft: &mut OpsDraft, alloc: Global, word: &[u8], words: Words) -> Result<bool, Stop>
    ensures { Gives (λ read. read_or_plain read (draft_shown draft.new)) result (in_outside (draft_shown draft.old) word.now words.entry) }
{
    if word != b"op".as_slice() {
        return Err(Stop::Fault(Fault::Form));
    }
    let op = op(alloc, draft.ops.items(), words)?;
    draft.begin_op(op);
    Ok(true)
}

/// `gen`
fn in_begun(draft: &mut OpsDraft, word: &[u8], mut words: Words) -> Result<bool, Stop>
    ensures { Gives (λ read. read_or_plain read (draft_shown draft.new)) result (in_begun_op (draft_shown draft.old) word.now words.entry) }
{
    if word != b"gen".as_slice() {
        return Err(Stop::Fault(Fault::Form));
    }
    words.end()?;
    draft.part = Part::Generator;
    Ok(true)
}

/// One more check or guard, if the method has room for it.
fn add(draft: &mut OpsDraft, instr: TargetInstr) -> Result<bool, Stop>
    ensures { Gives (λ read. read_or_plain read (draft_shown draft.new)) result (with_added (draft_shown draft.old) instr) }
{
    if !draft.has_place() {
        return Err(Stop::Fault(Fault::TooMany));
    }
    draft.add_instr(instr)?;
    Ok(true)
}

/// The register of a guard, and then the end: it is a reference.
fn guarded(mut words: Words) -> Result<Reg, Fault>
    ensures { Reads (λ r. r) result (guarded_at words.entry) }
{
    let register = words.register()?;
    words.end()?;
    match register {
        Reg::Num(_) => Err(Fault::Form),
        Reg::Ref(_) => Ok(register),
    }
}

/// `chk`, or `grd R`: `false` if the line must be an instruction of the language.
fn added(draft: &mut OpsDraft, word: &[u8], mut words: Words) -> Result<bool, Stop>
    ensures line { Gives (λ read. read_or_plain read (draft_shown draft.new)) result (added_line (draft_shown draft.old) word.now words.entry) }
    ensures same { IfOk result (λ read. read ≡ false → draft.new ≡ draft.old) }
{
    if word == b"chk".as_slice() {
        words.end()?;
        add(draft, TargetInstr::Check)
    } else if word == b"grd".as_slice() {
        let register = guarded(words)?;
        add(draft, TargetInstr::Guard(register))
    } else {
        Ok(false)
    }
}

/// A check or a guard, or after at least one instruction `wrap`.
fn in_generator(draft: &mut OpsDraft, word: &[u8], mut words: Words) -> Result<bool, Stop>
    ensures line { Gives (λ read. read_or_plain read (draft_shown draft.new)) result (in_target_generator (draft_shown draft.old) word.now words.entry) }
    ensures same { IfOk result (λ read. read ≡ false → draft.new ≡ draft.old) }
{
    if word == b"wrap".as_slice() && !draft.op.generator.items().is_empty() {
        words.end()?;
        draft.part = Part::WrapUp;
        Ok(true)
    } else {
        added(draft, word, words)
    }
}

/// `op NAME A` after a whole operation.
fn next_op(draft: &mut OpsDraft, alloc: Global, words: Words) -> Result<bool, Stop>
    ensures { Gives (λ read. read_or_plain read (draft_shown draft.new)) result (next_target_op (draft_shown draft.old) words.entry) }
{
    draft.end_op(alloc)?;
    let op = op(alloc, draft.ops.items(), words)?;
    draft.begin_op(op);
    Ok(true)
}

/// A check or a guard, or another operation after a whole one.
fn in_wrap_up(draft: &mut OpsDraft, alloc: Global, word: &[u8], words: Words) -> Result<bool, Stop>
    ensures line { Gives (λ read. read_or_plain read (draft_shown draft.new)) result (in_target_wrap_up (draft_shown draft.old) word.now words.entry) }
    ensures same { IfOk result (λ read. read ≡ false → draft.new ≡ draft.old) }
{
    if word == b"op".as_slice() {
        next_op(draft, alloc, words)
    } else {
        added(draft, word, words)
    }
}

fn in_part(draft: &mut OpsDraft, alloc: Global, word: &[u8], words: Words) -> Result<bool, Stop>
    ensures line { Gives (λ read. read_or_plain read (draft_shown draft.new)) result (own_line (draft_shown draft.old).part (draft_shown draft.old) word.now words.entry) }
    ensures same { IfOk result (λ read. read ≡ false → draft.new ≡ draft.old) }
{
    match draft.part {
        Part::Outside => in_outside(draft, alloc, word, words),
        Part::Begun => in_begun(draft, word, words),
        Part::Generator => in_generator(draft, word, words),
        Part::WrapUp => in_wrap_up(draft, alloc, word, words),
    }
}

/// Adds what a line says that is skipped or isn't an instruction of the language. `false` if it must be one, and then
/// nothing is added.
#[tactic(auto, using(crate::proofs::OwnLines::line_skipped, crate::proofs::OwnLines::line_placed, crate::proofs::OwnLines::line_faulty))]
pub(crate) fn read_own(draft: &mut OpsDraft, alloc: Global, line: Line) -> Result<bool, Stop>
    ensures line { Gives (λ read. read_or_plain read (draft_shown draft.new)) result (line_own (draft_shown draft.old) (line_shown line.entry)) }
    ensures same { IfOk result (λ read. read ≡ false → draft.new ≡ draft.old) }
{
    let mut words = Words::new(line)?;
    match words.first() {
        None => Ok(true),
        Some(word) => in_part(draft, alloc, word, words),
    }
}
