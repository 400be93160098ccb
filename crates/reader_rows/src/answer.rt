//! What a row's reader answers.

ghost use Rattle.std.specs.Prelude.{◌+◌, ◌<◌, ◌≤◌, ◌^◌, length};
ghost use Rattle.oa_text.specs.Lines.{lines_of};
ghost use Rattle.norm_parser.specs.Version.{IsVersionNumber};

use crate::contents::contents;
use crate::flaws::flaws_answer;
use crate::instruction::instruction_answer;
use crate::row::{Judge, Reader, Row};
use crate::rules::{path_answer, rule_answer};
use crate::verified::verify_answer;
use documents::{Document, read_document};
use line_words::fault::ParseError;
use norm_lang::show;
use norm_lang::text::Text;
use norm_parser::{parse, parse_front, parse_head};
use row_spelling::{RowError, few, one_line};
use std::alloc::{AllocError, Global};
use target_code::show_target;
use target_code::target::Target;
use target_reader::read_target;

/// A fault.
pub(crate) fn refused(alloc: Global, error: ParseError) -> Result<String, AllocError> {
    match error {
        ParseError::Fault(fault) => format!(in alloc; "line {} fault {}", fault.line, fault.number),
        ParseError::Memory => String::from_str(alloc, "memory ran out"),
    }
}

/// The line after what was read, or the fault.
fn ended(alloc: Global, end: Result<u32, ParseError>) -> Result<String, AllocError> {
    match end {
        Ok(next) => format!(in alloc; "next {next}"),
        Err(error) => refused(alloc, error),
    }
}

/// The answer of what answers any lines.
pub(crate) fn told(answer: Result<String, AllocError>) -> Result<String, RowError> {
    match answer {
        Ok(answer) => Ok(answer),
        Err(error) => Err(RowError::Memory(error)),
    }
}

/// The line after a text's declarations and their start, or the fault.
fn head_end(alloc: Global, bytes: &[u8], first: u32) -> Result<u32, ParseError>
    requires few { length (lines_of bytes.now) + 1 < 2 ^ 32 }
    requires counted { 1 ≤ first }
{
    match parse_head(alloc, bytes, first) {
        Ok((_, next)) => Ok(next),
        Err(error) => Err(error),
    }
}

/// The line after a text, or the fault.
fn text_end(alloc: Global, bytes: &[u8], first: u32, version: u8) -> Result<u32, ParseError>
    requires few { length (lines_of bytes.now) + 1 < 2 ^ 32 }
    requires counted { 1 ≤ first }
    requires version { IsVersionNumber version }
{
    match parse_front(alloc, bytes, first, version) {
        Ok((_, next)) => Ok(next),
        Err(error) => Err(error),
    }
}

/// What the reader of the text or of the declarations that begin at a line answers.
fn part_answer(alloc: Global, row: &Row<'_>, bytes: &[u8]) -> Result<String, RowError>
    requires { length (lines_of bytes.now) + 1 < 2 ^ 32 }
{
    if row.first < 1 || row.version < 1 || row.version > 2 {
        return Err(RowError::Wrong);
    }
    if matches!(row.reader, Reader::Head) {
        told(ended(alloc, head_end(alloc, bytes, row.first)))
    } else {
        told(ended(alloc, text_end(alloc, bytes, row.first, row.version)))
    }
}

/// The canonical spelling of a text.
fn text_line(alloc: Global, text: &Text) -> Result<String, AllocError> {
    let spelling = show(alloc, text)?;
    one_line(alloc, spelling.items())
}

/// What a rule says of an instruction of a text's first operation.
fn judged_op(alloc: Global, row: &Row<'_>, judge: Judge, text: &Text) -> Result<String, RowError> {
    let at = row.first as usize;
    match (judge, text.ops.items().first()) {
        (_, None) => Err(RowError::Wrong),
        (Judge::Paths, Some(op)) => path_answer(alloc, op, row.wrapup, at),
        (judge, Some(op)) => rule_answer(alloc, text, judge, op, row.wrapup, at),
    }
}

/// What a row asks of a text that was read.
fn of_text(alloc: Global, row: &Row<'_>, text: &Text) -> Result<String, RowError> {
    match row.reader {
        Reader::TextShown => told(text_line(alloc, text)),
        Reader::Judged(judge) => judged_op(alloc, row, judge, text),
        _ => told(String::from_str(alloc, "ok")),
    }
}

/// What a row asks of the text that the lines are, or the fault.
fn text_answer(alloc: Global, row: &Row<'_>, bytes: &[u8]) -> Result<String, RowError>
    requires { length (lines_of bytes.now) + 1 < 2 ^ 32 }
{
    match parse(alloc, bytes) {
        Ok(text) => of_text(alloc, row, &text),
        Err(error) => told(refused(alloc, error)),
    }
}

/// What a row asks of a document that was read.
fn of_document(alloc: Global, reader: Reader, document: &Document) -> Result<String, AllocError> {
    match reader {
        Reader::DocumentShown => contents(alloc, document),
        Reader::DocumentText => text_line(alloc, &document.text),
        _ => String::from_str(alloc, "ok"),
    }
}

/// What a row asks of the document that the lines are, or the fault.
fn document_answer(alloc: Global, reader: Reader, bytes: &[u8]) -> Result<String, AllocError>
    requires { length (lines_of bytes.now) + 1 < 2 ^ 32 }
{
    match read_document(alloc, bytes) {
        Ok(document) => of_document(alloc, reader, &document),
        Err(error) => refused(alloc, error),
    }
}

/// The canonical spelling of a target.
fn target_line(alloc: Global, target: &Target) -> Result<String, AllocError> {
    let spelling = show_target(alloc, target)?;
    one_line(alloc, spelling.items())
}

/// The flaws of an instruction of a target's first operation.
fn judged_target_op(
    alloc: Global,
    row: &Row<'_>,
    judge: Judge,
    target: &Target,
) -> Result<String, RowError> {
    let carried = matches!(judge, Judge::CarriedFlaws);
    match target.ops.items().first() {
        None => Err(RowError::Wrong),
        Some(op) => flaws_answer(alloc, op, carried, row.wrapup, row.first as usize),
    }
}

/// What a row asks of a target that was read.
fn of_target(alloc: Global, row: &Row<'_>, target: &Target) -> Result<String, RowError> {
    match row.reader {
        Reader::TargetShown => told(target_line(alloc, target)),
        Reader::Judged(judge) => judged_target_op(alloc, row, judge, target),
        _ => told(String::from_str(alloc, "ok")),
    }
}

/// What a row asks of the target that the lines are, or the fault.
fn target_answer(alloc: Global, row: &Row<'_>, bytes: &[u8]) -> Result<String, RowError>
    requires { length (lines_of bytes.now) + 1 < 2 ^ 32 }
{
    match read_target(alloc, bytes) {
        Ok(target) => of_target(alloc, row, &target),
        Err(error) => told(refused(alloc, error)),
    }
}

/// What the row's reader answers.
pub(crate) fn answer(alloc: Global, row: &Row<'_>, bytes: &[u8]) -> Result<String, RowError> {
    if !few(bytes) {
        return Err(RowError::Wrong);
    }
    match row.reader {
        Reader::Front | Reader::Head => part_answer(alloc, row, bytes),
        Reader::Instruction => instruction_answer(alloc, bytes),
        Reader::Document | Reader::DocumentShown | Reader::DocumentText => {
            told(document_answer(alloc, row.reader, bytes))
        }
        Reader::Target | Reader::TargetShown | Reader::Judged(Judge::Flaws | Judge::CarriedFlaws) =>
            target_answer(alloc, row, bytes),
        Reader::Text | Reader::TextShown | Reader::Judged(_) => text_answer(alloc, row, bytes),
        Reader::Verified => verify_answer(alloc, bytes),
    }
}
