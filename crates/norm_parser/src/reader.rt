//! The readers of texts, of texts within documents, and of a target's declarations.

ghost use Rattle.std.specs.Prelude.{◌≡◌, ◌+◌, ◌<◌, ◌≤◌, ◌^◌, length, IfOk, IfErr};
ghost use Rattle.oa_text.specs.Lines.{lines_of};
ghost use Rattle.norm_lang.specs.declared.text.Version.TheVariants.{Second};
ghost use Rattle.norm_lang.specs.Grammar.{draft_at, after_lines, Start, Opening, text_read};
ghost use Rattle.norm_lang.specs.Limits.{IsWithinLimits};
ghost use Rattle.line_words.specs.Answered.{Answers};
ghost use Rattle.norm_parser.specs.Cursors.{past_of, IsRestOf, AreTheLater, AreLeftFrom};
ghost use Rattle.norm_parser.specs.DraftShown.{draft_shown};
ghost use Rattle.norm_parser.specs.Drafted.{draft_if};
ghost use Rattle.norm_parser.specs.FaultShown.{fault_shown};
ghost use Rattle.norm_parser.specs.FrontRead.{end_at, front_end, front_in, front_read, head_end, head_in, head_read, IsHeadWithinLimits};
ghost use Rattle.norm_parser.specs.Version.{IsVersionNumber, numbered_version};

use crate::cursor::Cursor;
use crate::draft::{Draft, Section};
use crate::front::{ends_front, ends_head, front_word, misplaced, names_text};
use crate::head::{Head, whole_head};
use crate::lines::read_text_line;
use crate::version::numbered_version;
use line_words::fault::{Fault, ParseError, ParseFault, Stop};
use norm_lang::text::{Text, Version};
use std::alloc::Global;

/// A draft, if its lines were read. It stands alone, since dropping a draft is proved on each way out.
fn draft_if(draft: Draft, read: Result<(), ParseError>) -> Result<Draft, ParseError>
    ensures { result ≡ draft_if draft read }
{
    match read {
        Ok(()) => Ok(draft),
        Err(error) => Err(error),
    }
}

/// Adds what all lines declare.
#[tactic(auto, using(crate::proofs::CursorLines::rest_of_passed, crate::proofs::CursorLines::rest_of_all, crate::proofs::Reading::few_kinds, crate::proofs::Reading::few_fields, crate::proofs::Reading::few_roots, crate::proofs::Reading::few_owners, crate::proofs::Reading::kept_on, crate::proofs::Reading::kept_first, crate::proofs::Reading::lines_first))]
fn add_lines(draft: &mut Draft, alloc: Global, cursor: &mut Cursor) -> Result<(), ParseError>
    requires first { draft_shown draft.old ≡ draft_at Second Start }
    ensures lines { Answers (λ _. draft_shown draft.new) result (after_lines (draft_at Second Start) cursor.old.lines) }
    ensures past { IfOk result (λ _. cursor.new.number ≡ past_of cursor.old) }
{
    'lines: while let Some(line) = cursor.take() {
        read_text_line(draft, alloc, line)?;
    }
    Ok(())
}

/// What all lines declare.
fn read_lines(alloc: Global, cursor: &mut Cursor) -> Result<Draft, ParseError>
    ensures lines { Answers (λ draft. draft_shown draft) result (after_lines (draft_at Second Start) cursor.old.lines) }
    ensures past { IfOk result (λ _. cursor.new.number ≡ past_of cursor.old) }
{
    let mut draft = Draft::at(alloc, Version::Second, Section::Start)?;
    let read = add_lines(&mut draft, alloc, cursor);
    draft_if(draft, read)
}

/// The text that the bytes spell: a line `oa 1` or `oa 2`, a text of that version, and nothing else but lines that are
/// skipped.
///
/// The input has fewer than 2^32 - 1 lines; its length bounds their count. `parse` of the canonical spelling of a text
/// within the limits answers that text, by the law `spellings_stand` of the language.
///
/// # Errors
///
/// `Fault` exactly if the bytes spell no text by the grammar, with the grammar's fault: the first line that has one,
/// and its first fault. If the input ends and a further line must follow, the fault is 4 at one more than the number of
/// lines. `Memory` if memory runs out.
pub fn parse(alloc: Global, input: &[u8]) -> Result<Text, ParseError>
    requires { length (lines_of input.now) + 1 < 2 ^ 32 }
    ensures exact { Answers (λ text. text) result (text_read input.now) }
    ensures within { IfOk result (λ text. IsWithinLimits text) }
{
    let mut cursor = Cursor::new(input);
    let draft = read_lines(alloc, &mut cursor)?;
    match draft.finish(alloc) {
        Ok(text) => Ok(text),
        Err(stop) => Err(stop.at(cursor.number())),
    }
}

/// The fault where lines end, if a further one must come first: at the next line, or past the input.
#[tactic(auto, using(crate::proofs::Fronts::end_stands, crate::proofs::Fronts::end_over))]
fn end_fault(cursor: &Cursor) -> ParseFault
    ensures { fault_shown result ≡ end_at cursor.now.lines (past_of cursor.now) }
{
    let fault = match cursor.peek() {
        Some(line) => misplaced(line),
        None => Fault::Form,
    };
    ParseFault {
        line: cursor.number(),
        number: fault.number(),
    }
}

/// Adds what the lines of a text declare.
#[tactic(auto, using(crate::proofs::CursorLines::rest_of_passed, crate::proofs::CursorLines::rest_of_all, crate::proofs::Reading::few_kinds, crate::proofs::Reading::few_fields, crate::proofs::Reading::few_roots, crate::proofs::Reading::few_owners, crate::proofs::Reading::kept_on, crate::proofs::Reading::kept_opening, crate::proofs::Fronts::front_starts, crate::proofs::Fronts::front_goes_on, crate::proofs::Fronts::front_ends, crate::proofs::Fronts::front_over, crate::proofs::Fronts::front_stops, crate::proofs::LinesPassed::none_passed, crate::proofs::LinesPassed::later_here, crate::proofs::LinesPassed::later_over, crate::proofs::LinesPassed::left_where_faulty, crate::proofs::LinesPassed::left_at_end, crate::proofs::Fronts::end_line_stands, crate::proofs::Fronts::end_line_over, crate::proofs::CursorLines::rest_past))]
fn add_front(draft: &mut Draft, alloc: Global, cursor: &mut Cursor) -> Result<(), ParseError>
    requires first { draft_shown draft.old ≡ draft_at draft.old.version Opening }
    ensures exact { Answers (λ _. (draft_shown draft.new, end_at cursor.new.lines (past_of cursor.new))) result (front_end draft.old.version cursor.old.lines (past_of cursor.old)) }
    ensures rest { IsRestOf cursor.old cursor.new }
    ensures later { IfOk result (λ _. AreTheLater cursor.old cursor.new) }
    ensures left { IfErr result (λ error. AreLeftFrom error cursor.old.lines cursor.new.lines) }
    ensures number { IfOk result (λ _. (end_at cursor.new.lines (past_of cursor.new)).line ≡ cursor.new.number) }
{
    let mut named = false;
    'lines: while let Some(next) = cursor.peek() {
        let word = front_word(next.bytes());
        if ends_front(named, word) {
            return Ok(());
        }
        read_text_line(draft, alloc, next)?;
        cursor.pass();
        named = names_text(word);
    }
    Ok(())
}

/// What the lines of a text declare.
#[tactic(auto, using(crate::proofs::CursorLines::rest_of_all))]
fn front_draft(alloc: Global, version: Version, cursor: &mut Cursor) -> Result<Draft, ParseError>
    ensures exact { Answers (λ draft. (draft_shown draft, end_at cursor.new.lines (past_of cursor.new))) result (front_end version cursor.old.lines (past_of cursor.old)) }
    ensures rest { IsRestOf cursor.old cursor.new }
    ensures later { IfOk result (λ _. AreTheLater cursor.old cursor.new) }
    ensures left { IfErr result (λ error. AreLeftFrom error cursor.old.lines cursor.new.lines) }
    ensures number { IfOk result (λ _. (end_at cursor.new.lines (past_of cursor.new)).line ≡ cursor.new.number) }
{
    let mut draft = Draft::at(alloc, version, Section::Opening)?;
    let read = add_front(&mut draft, alloc, cursor);
    draft_if(draft, read)
}

/// Takes the lines of a text after the version line, and answers the text.
///
/// The text ends with its `use` line if it has one; otherwise before the first line whose first word is `slots`,
/// `phases`, `fuel`, `script` or `schedule`, even if that line has a fault, or at the end of the input.
///
/// # Errors
///
/// As those of `parse_front`. At a `Fault` its line is the next that is left, or none is left.
#[tactic(auto, using(crate::proofs::LinesPassed::left_at_end))]
pub fn read_front(alloc: Global, version: Version, cursor: &mut Cursor) -> Result<Text, ParseError>
    ensures exact { Answers (λ text. (text, cursor.new.number)) result (front_in version cursor.old.lines (past_of cursor.old)) }
    ensures rest { IsRestOf cursor.old cursor.new }
    ensures left { IfErr result (λ error. AreLeftFrom error cursor.old.lines cursor.new.lines) }
    ensures within { IfOk result (λ text. IsWithinLimits text) }
{
    let draft = front_draft(alloc, version, cursor)?;
    match draft.finish(alloc) {
        Ok(text) => Ok(text),
        Err(Stop::Fault(_)) => Err(ParseError::Fault(end_fault(cursor))),
        Err(Stop::Memory) => Err(ParseError::Memory),
    }
}

/// The text that begins at a line, after the version line, and the number of the first line after it. Its lines are those of
/// the version with this number, 1 or 2.
///
/// The text ends with its `use` line if it has one; otherwise before the first line whose first word is `slots`,
/// `phases`, `fuel`, `script` or `schedule`, even if that line has a fault, or at the end of the input. Lines count from
/// 1. The input has fewer than 2^32 - 1 lines; its length bounds their count.
///
/// # Errors
///
/// `Fault` with the first fault of the text's lines. If they have none and a further line of the text must follow, it
/// stands where the text ends: at the line there with its number 3 or 1 if its bytes have that fault, in this order, and
/// else 4; at the end of the input it is 4 at one more than the number of lines. `Memory` if memory runs out.
pub fn parse_front(
    alloc: Global,
    input: &[u8],
    line: u32,
    version: u8,
) -> Result<(Text, u32), ParseError>
    requires few { length (lines_of input.now) + 1 < 2 ^ 32 }
    requires counted { 1 ≤ line }
    requires version { IsVersionNumber version }
    ensures exact { Answers (λ front. front) result (front_read (numbered_version version) input.now line) }
    ensures within { IfOk result (λ front. IsWithinLimits front.0) }
{
    let mut cursor = Cursor::from_line(input, line);
    let text = read_front(alloc, numbered_version(version), &mut cursor)?;
    Ok((text, cursor.number()))
}

/// Adds what the lines of declarations declare.
#[tactic(auto, using(crate::proofs::CursorLines::rest_of_passed, crate::proofs::CursorLines::rest_of_all, crate::proofs::Reading::few_kinds, crate::proofs::Reading::few_fields, crate::proofs::Reading::few_roots, crate::proofs::Reading::few_owners, crate::proofs::Reading::kept_on, crate::proofs::Reading::kept_opening, crate::proofs::Fronts::head_starts, crate::proofs::Fronts::head_goes_on, crate::proofs::Fronts::head_misplaced, crate::proofs::Fronts::head_ends_here, crate::proofs::Fronts::head_over, crate::proofs::Fronts::head_faulty, crate::proofs::LinesPassed::none_passed, crate::proofs::LinesPassed::later_here, crate::proofs::LinesPassed::later_over, crate::proofs::LinesPassed::left_where_faulty, crate::proofs::LinesPassed::left_at_end, crate::proofs::Fronts::end_line_stands, crate::proofs::CursorLines::rest_past))]
fn add_head(draft: &mut Draft, alloc: Global, cursor: &mut Cursor) -> Result<(), ParseError>
    requires first { draft_shown draft.old ≡ draft_at Second Opening }
    ensures exact { Answers (λ _. (draft_shown draft.new, end_at cursor.new.lines (past_of cursor.new))) result (head_end cursor.old.lines (past_of cursor.old)) }
    ensures rest { IsRestOf cursor.old cursor.new }
    ensures later { IfOk result (λ _. AreTheLater cursor.old cursor.new) }
    ensures left { IfErr result (λ error. AreLeftFrom error cursor.old.lines cursor.new.lines) }
    ensures number { IfOk result (λ _. (end_at cursor.new.lines (past_of cursor.new)).line ≡ cursor.new.number) }
{
    'lines: while let Some(next) = cursor.peek() {
        let word = front_word(next.bytes());
        if names_text(word) {
            return Err(ParseError::Fault(end_fault(cursor)));
        }
        if ends_head(word) {
            return Ok(());
        }
        read_text_line(draft, alloc, next)?;
        cursor.pass();
    }
    Err(ParseError::Fault(end_fault(cursor)))
}

/// What the lines of declarations declare.
#[tactic(auto, using(crate::proofs::CursorLines::rest_of_all))]
fn head_draft(alloc: Global, cursor: &mut Cursor) -> Result<Draft, ParseError>
    ensures exact { Answers (λ draft. (draft_shown draft, end_at cursor.new.lines (past_of cursor.new))) result (head_end cursor.old.lines (past_of cursor.old)) }
    ensures rest { IsRestOf cursor.old cursor.new }
    ensures later { IfOk result (λ _. AreTheLater cursor.old cursor.new) }
    ensures left { IfErr result (λ error. AreLeftFrom error cursor.old.lines cursor.new.lines) }
    ensures number { IfOk result (λ _. (end_at cursor.new.lines (past_of cursor.new)).line ≡ cursor.new.number) }
{
    let mut draft = Draft::at(alloc, Version::Second, Section::Opening)?;
    let read = add_head(&mut draft, alloc, cursor);
    draft_if(draft, read)
}

/// Takes the lines of declarations of the second version after the version line, and answers what they declare. They end
/// before the first line whose first word is `op`.
///
/// # Errors
///
/// As those of `parse_head`. At a `Fault` its line is the next that is left, or none is left.
#[tactic(auto, using(crate::proofs::LinesPassed::left_at_end))]
pub fn read_head(alloc: Global, cursor: &mut Cursor) -> Result<Head, ParseError>
    ensures exact { Answers (λ head. (head, cursor.new.number)) result (head_in cursor.old.lines (past_of cursor.old)) }
    ensures rest { IsRestOf cursor.old cursor.new }
    ensures left { IfErr result (λ error. AreLeftFrom error cursor.old.lines cursor.new.lines) }
    ensures within { IfOk result (λ head. IsHeadWithinLimits head) }
{
    let draft = head_draft(alloc, cursor)?;
    match whole_head(draft) {
        Ok(head) => Ok(head),
        Err(_) => Err(ParseError::Fault(end_fault(cursor))),
    }
}

/// The declarations of the second version that begin at a line, after the version line, and the number of the first line
/// whose first word is `op`, before which they end.
///
/// They are kind, field, nodes, node and root lines; a `use` line is fault 4. Lines count from 1. The input has fewer than
/// 2^32 - 1 lines; its length bounds their count.
///
/// # Errors
///
/// `Fault` with the first fault of the lines before the `op` line. If they have none and a further one must follow, the
/// fault is at the `op` line: 3 or 1 if its bytes have that fault, in this order, and else 4. If the input ends without
/// an `op` line, it is 4 at one more than the number of lines. `Memory` if memory runs out.
pub fn parse_head(alloc: Global, input: &[u8], line: u32) -> Result<(Head, u32), ParseError>
    requires few { length (lines_of input.now) + 1 < 2 ^ 32 }
    requires counted { 1 ≤ line }
    ensures exact { Answers (λ head. head) result (head_read input.now line) }
    ensures within { IfOk result (λ head. IsHeadWithinLimits head.0) }
{
    let mut cursor = Cursor::from_line(input, line);
    let head = read_head(alloc, &mut cursor)?;
    Ok((head, cursor.number()))
}
