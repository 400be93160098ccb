//! The version line with which a document or a target begins.

ghost use Rattle.std.specs.Prelude.{◌≡◌, Some, IfErr};
ghost use Rattle.oa_text.specs.Shown.{line_shown};
ghost use Rattle.line_words.specs.Answered.{Reads, Answers};
ghost use Rattle.norm_parser.specs.Cursors.{past_of, IsRestOf, AreTheLater};
ghost use Rattle.norm_parser.specs.Instruction.{AreLeftAt};
ghost use Rattle.norm_parser.specs.Version.{numbered_version, version_said, line_version, after_version, after_second_version};

use crate::cursor::Cursor;
use line_words::fault::{Fault, ParseError, Stop};
use line_words::words::Words;
use norm_lang::text::Version;
use oa_text::Line;
use text_lines::declarations;

/// The version with a number, which is 1 or 2.
pub fn numbered_version(number: u8) -> Version
    ensures { result ≡ numbered_version number }
{
    if number == 1 {
        Version::First
    } else {
        Version::Second
    }
}

fn version_said(name: &[u8], word: &[u8], words: Words) -> Result<Option<Version>, Fault>
    ensures { Reads (λ said. said) result (version_said name.now (Some (word.now, words.entry))) }
{
    if word != name {
        return Err(Fault::Form);
    }
    Ok(Some(declarations::version(words)?))
}

/// The version that a line says: `None` if it is skipped.
fn line_version(name: &[u8], line: Line) -> Result<Option<Version>, Fault>
    ensures { Reads (λ said. said) result (line_version name.now (line_shown line.entry)) }
{
    let mut words = Words::new(line)?;
    match words.first() {
        None => Ok(None),
        Some(word) => version_said(name, word, words),
    }
}

/// Takes the lines up to the version line, which is this name and `1` or `2`, and answers the version. Before it there are
/// only lines that are skipped.
///
/// # Errors
///
/// `Fault` with the first fault of the lines up to the version line; if there is neither a fault nor a version line, it is 4
/// at one more than the number of lines. The lines after the fault's line are left.
#[tactic(auto, using(crate::proofs::CursorLines::rest_of_passed, crate::proofs::CursorLines::rest_of_all, crate::proofs::LinesPassed::none_passed, crate::proofs::LinesPassed::one_passed, crate::proofs::LinesPassed::later_next, crate::proofs::LinesPassed::later_after, crate::proofs::LinesPassed::left_over, crate::proofs::Versions::version_here, crate::proofs::Versions::version_skipped, crate::proofs::Versions::version_faulty))]
pub fn read_version(name: &[u8], cursor: &mut Cursor) -> Result<Version, ParseError>
    ensures exact { Answers (λ version. (cursor.new.number, version)) result (after_version name.now (past_of cursor.old) cursor.old.lines) }
    ensures rest { IsRestOf cursor.old cursor.new }
    ensures later { AreTheLater cursor.old cursor.new }
    ensures left { IfErr result (λ error. AreLeftAt error cursor.old.lines cursor.new.lines) }
{
    'lines: while let Some(line) = cursor.take() {
        match line_version(name, line) {
            Ok(Some(version)) => return Ok(version),
            Ok(None) => {}
            Err(fault) => return Err(Stop::Fault(fault).at(line.number())),
        }
    }
    Err(Stop::Fault(Fault::Form).at(cursor.number()))
}

/// Takes the lines up to the version line, which is this name and `2`. Before it there are only lines that are skipped.
///
/// # Errors
///
/// `Fault` with the first fault of the lines up to the version line; `1` in place of `2` is fault 4 there. If there is
/// neither a fault nor a version line, it is 4 at one more than the number of lines. The lines after the fault's line are
/// left.
#[tactic(auto, using(crate::proofs::LinesPassed::left_before))]
pub fn read_second_version(name: &[u8], cursor: &mut Cursor) -> Result<(), ParseError>
    ensures exact { Answers (λ _. cursor.new.number) result (after_second_version name.now (past_of cursor.old) cursor.old.lines) }
    ensures rest { IsRestOf cursor.old cursor.new }
    ensures later { AreTheLater cursor.old cursor.new }
    ensures left { IfErr result (λ error. AreLeftAt error cursor.old.lines cursor.new.lines) }
{
    match read_version(name, cursor)? {
        Version::First => Err(Stop::Fault(Fault::Form).at(cursor.number() - 1)),
        Version::Second => Ok(()),
    }
}
