//! The reader of targets.

ghost use Rattle.std.specs.Prelude.{◌≡◌, ◌+◌, ◌<◌, ◌^◌, ◌∷◌, length, IfOk};
ghost use Rattle.oa_text.specs.Lines.{lines_of};
ghost use Rattle.oa_text.specs.Shown.{line_shown};
ghost use Rattle.line_words.specs.Answered.{Answers};
ghost use Rattle.norm_parser.specs.Cursors.{all_lines, IsRestOf};
ghost use Rattle.norm_parser.specs.Instruction.{AreFrom, AreLeftOf};
ghost use Rattle.norm_parser.specs.FrontRead.{IsHeadWithinLimits};
ghost use Rattle.target_code.specs.TargetLimits.{IsTargetWithinLimits};
ghost use Rattle.target_reader.specs.TargetGrammar.{no_ops, ops_read, target_read};
ghost use Rattle.target_reader.specs.OpsShown.{draft_shown, GoesOn};

use crate::draft::OpsDraft;
use crate::own::read_own;
use crate::plain::read_plain;
use line_words::fault::ParseError;
use norm_parser::{Cursor, Head, number_past, read_head, read_second_version};
use oa_text::{Line, Lines};
use std::alloc::Global;
use target_code::target::{Target, TargetOps};

/// Adds what a line says, with the entry lines of a commit.
#[tactic(auto, using(crate::proofs::OwnLines::own_added, crate::proofs::OwnLines::own_fails, crate::proofs::Reading::left_all))]
fn read_op_line<'a>(
    draft: &mut OpsDraft,
    alloc: Global,
    line: Line<'a>,
    rest: &mut Lines<'a>,
    head: &Head,
) -> Result<(), ParseError>
    requires behind { AreFrom ((line_shown line).number + 1) rest.old }
    requires room { (line_shown line).number + 1 + length rest.old < 2 ^ 32 }
    requires within { IsHeadWithinLimits head.now }
    ensures goes { GoesOn (ops_read head.now.kinds head.now.fields head.now.roots ((line_shown line.entry).number + 1 + length rest.old) (draft_shown draft.old) (line_shown line.entry ∷ rest.old)) (ops_read head.now.kinds head.now.fields head.now.roots ((line_shown line.entry).number + 1 + length rest.old) (draft_shown draft.new) rest.new) result }
    ensures left { AreLeftOf rest.old rest.new }
{
    match read_own(draft, alloc, line) {
        Ok(true) => Ok(()),
        Ok(false) => read_plain(draft, alloc, line, rest, head),
        Err(stop) => Err(stop.at(line.number())),
    }
}

/// Adds the operations whose lines are left of an input to none.
fn add_ops<'a>(
    draft: &mut OpsDraft,
    alloc: Global,
    input: &'a [u8],
    cursor: Cursor<'a>,
    head: &Head,
) -> Result<(), ParseError>
    requires few { length (lines_of input.now) + 1 < 2 ^ 32 }
    requires rest { IsRestOf (all_lines input.now) cursor }
    requires within { IsHeadWithinLimits head.now }
    requires none { draft_shown draft.old ≡ no_ops }
    ensures { Answers (λ _. draft.new.ops) result (ops_read head.now.kinds head.now.fields head.now.roots (length (lines_of input.now) + 1) no_ops cursor.entry.lines) }
{
    let (mut next, mut rest) = cursor.split();
    'lines: while let Some(line) = next {
        read_op_line(draft, alloc, line, &mut rest, head)?;
        next = rest.next();
    }
    match draft.end(alloc) {
        Ok(()) => Ok(()),
        Err(stop) => Err(stop.at(number_past(input))),
    }
}

/// The operations whose lines are left of an input.
fn read_ops<'a>(
    alloc: Global,
    input: &'a [u8],
    cursor: Cursor<'a>,
    head: &Head,
) -> Result<TargetOps, ParseError>
    requires few { length (lines_of input.now) + 1 < 2 ^ 32 }
    requires rest { IsRestOf (all_lines input.now) cursor }
    requires within { IsHeadWithinLimits head.now }
    ensures { Answers (λ ops. ops) result (ops_read head.now.kinds head.now.fields head.now.roots (length (lines_of input.now) + 1) no_ops cursor.entry.lines) }
{
    let mut draft = OpsDraft::start(alloc);
    match add_ops(&mut draft, alloc, input, cursor, head) {
        Ok(()) => Ok(draft.into_ops()),
        Err(error) => Err(error),
    }
}

/// The target that the bytes spell: a line `oat 2`, the declarations of a text, operations, and nothing else but lines that
/// are skipped. In methods there may stand `chk` and `grd R`, where R is a reference register; a method has 1 to 4096
/// instructions, and jump numbers count them.
///
/// The input has fewer than 2^32 - 1 lines; its length bounds their count.
///
/// # Errors
///
/// `Fault` exactly if the bytes spell no target by the grammar, with the grammar's fault: the first line that has one,
/// and its first fault, as `norm_parser` numbers them. If the input ends but a further line must follow, the fault is 4 at
/// one more than the number of lines. `Memory` if memory runs out.
pub fn read_target(alloc: Global, input: &[u8]) -> Result<Target, ParseError>
    requires { length (lines_of input.now) + 1 < 2 ^ 32 }
    ensures exact { Answers (λ target. target) result (target_read input.now) }
    ensures within { IfOk result (λ target. IsTargetWithinLimits target) }
{
    let mut cursor = Cursor::new(input);
    read_second_version(b"oat", &mut cursor)?;
    let head = read_head(alloc, &mut cursor)?;
    let ops = read_ops(alloc, input, cursor, &head)?;
    Ok(Target {
        kinds: head.kinds,
        fields: head.fields,
        roots: head.roots,
        nodes: head.nodes,
        ops,
    })
}
