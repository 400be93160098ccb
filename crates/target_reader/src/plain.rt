//! The instructions of the language among a target's operations.

ghost use Rattle.std.specs.Prelude.{◌≡◌, ◌+◌, ◌<◌, ◌^◌, ◌∷◌, false, length, Ok, None};
ghost use Rattle.oa_text.specs.Shown.{line_shown};
ghost use Rattle.oa_text.specs.Tokens.{words_of};
ghost use Rattle.norm_lang.specs.Instructions.{Whole};
ghost use Rattle.line_words.specs.Answered.{Fails, Answers};
ghost use Rattle.norm_parser.specs.FrontRead.{IsHeadWithinLimits};
ghost use Rattle.norm_parser.specs.Instruction.{are_skipped, AreFrom, AreLeftOf};
ghost use Rattle.target_reader.specs.TargetGrammar.{is_fifth_target_new, ops_read};
ghost use Rattle.target_reader.specs.OpsShown.{draft_shown, line_own, alone, too_many_at, GoesOn};

use crate::draft::OpsDraft;
use line_words::fault::{Fault, ParseError, Stop};
use norm_lang::limits::MOST_NEWS;
use norm_lang::text::Instr;
use norm_parser::{Head, parse_instr};
use oa_text::{Line, Lines, lines};
use std::alloc::Global;
use target_code::target::TargetInstr;

/// Whether an instruction is a fifth `new` of its operation.
fn is_fifth(draft: &OpsDraft, instr: &Instr) -> bool
    ensures { result ≡ is_fifth_target_new (draft_shown draft.now) (Whole instr.now) }
{
    matches!(instr, Instr::New(..)) && draft.news() >= MOST_NEWS
}

/// An instruction's line as it is read with no line after it: a commit whose entries are missing has the fault after it.
#[tactic(auto, using(crate::proofs::Plains::stands, crate::proofs::Ordered::nothing_left, crate::proofs::Targets::few_kinds, crate::proofs::Targets::few_fields, crate::proofs::Targets::few_roots, crate::proofs::Targets::fields_differ, crate::proofs::Targets::roots_differ))]
fn read_alone(alloc: Global, line: Line, head: &Head) -> Result<(), ParseError>
    requires stands { are_skipped (words_of (line_shown line).bytes) ≡ false }
    requires room { (line_shown line).number + 1 < 2 ^ 32 }
    requires within { IsHeadWithinLimits head.now }
    ensures { Answers (λ _. tt) result (alone head.now.kinds head.now.fields head.now.roots (line_shown line.entry)) }
{
    let mut none = lines(b"");
    parse_instr(
        alloc,
        line,
        &mut none,
        &head.fields,
        &head.roots,
        &head.kinds,
    )?;
    Ok(())
}

/// The fault of an instruction that a full method has no room for: its own line is judged, and no entry line of a commit.
#[tactic(auto, using(crate::proofs::Plains::read_alone, crate::proofs::Plains::faulty_alone, crate::proofs::Plains::other_alone))]
fn overfull(alloc: Global, line: Line, head: &Head) -> ParseError
    requires stands { are_skipped (words_of (line_shown line).bytes) ≡ false }
    requires room { (line_shown line).number + 1 < 2 ^ 32 }
    requires within { IsHeadWithinLimits head.now }
    ensures { Fails result (too_many_at head.now.kinds head.now.fields head.now.roots (line_shown line.entry)) }
{
    let number = line.number();
    match read_alone(alloc, line, head) {
        Err(ParseError::Memory) => ParseError::Memory,
        Err(ParseError::Fault(fault)) => {
            if fault.line == number {
                ParseError::Fault(fault)
            } else {
                Stop::Fault(Fault::TooMany).at(number)
            }
        }
        Ok(()) => Stop::Fault(Fault::TooMany).at(number),
    }
}

/// Adds the instruction that begins with a line, with the entry lines of a commit.
#[tactic(auto, using(crate::proofs::Plains::stands, crate::proofs::Targets::few_kinds, crate::proofs::Targets::few_fields, crate::proofs::Targets::few_roots, crate::proofs::Targets::fields_differ, crate::proofs::Targets::roots_differ))]
pub(crate) fn read_plain<'a>(
    draft: &mut OpsDraft,
    alloc: Global,
    line: Line<'a>,
    rest: &mut Lines<'a>,
    head: &Head,
) -> Result<(), ParseError>
    requires plain { line_own (draft_shown draft.old) (line_shown line) ≡ Ok None }
    requires behind { AreFrom ((line_shown line).number + 1) rest.old }
    requires room { (line_shown line).number + 1 + length rest.old < 2 ^ 32 }
    requires within { IsHeadWithinLimits head.now }
    ensures goes { GoesOn (ops_read head.now.kinds head.now.fields head.now.roots ((line_shown line.entry).number + 1 + length rest.old) (draft_shown draft.old) (line_shown line.entry ∷ rest.old)) (ops_read head.now.kinds head.now.fields head.now.roots ((line_shown line.entry).number + 1 + length rest.old) (draft_shown draft.new) rest.new) result }
    ensures left { AreLeftOf rest.old rest.new }
{
    if !draft.has_place() {
        return Err(overfull(alloc, line, head));
    }
    let number = line.number();
    let instr = parse_instr(alloc, line, rest, &head.fields, &head.roots, &head.kinds)?;
    if is_fifth(draft, &instr) {
        return Err(Stop::Fault(Fault::TooMany).at(number));
    }
    draft.add_instr(TargetInstr::Plain(instr))?;
    Ok(())
}
