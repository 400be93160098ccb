//! What a line after the text of a document is.

ghost use Rattle.std.specs.Prelude.{◌≡◌, ◌≤◌, length};
ghost use Rattle.oa_text.specs.Shown.{line_shown};
ghost use Rattle.norm_lang.specs.Faults.{at_line};
ghost use Rattle.line_words.specs.Answered.{Gives, Answers};
ghost use Rattle.documents.specs.DocumentRead.{after_line};
ghost use Rattle.documents.specs.TailShown.{tail_shown};

use crate::sections::in_stage;
use crate::tail::Tail;
use line_words::fault::{ParseError, Stop};
use line_words::words::Words;
use oa_text::Line;
use std::alloc::Global;

fn add_tail_line(tail: &mut Tail, alloc: Global, line: Line) -> Result<(), Stop>
    requires few_kinds { length tail.old.text.kinds ≤ 4 }
    ensures says { Gives (λ _. tail_shown tail.new) result (after_line (tail_shown tail.old) (line_shown line.entry)) }
    ensures kept { tail.new.text ≡ tail.old.text }
{
    let mut words = Words::new(line)?;
    match words.first() {
        None => Ok(()),
        Some(word) => in_stage(tail, alloc, line.number(), word, &mut words),
    }
}

/// Adds what a line after the text says. A line that is skipped says nothing, and its bytes are judged.
pub(crate) fn read_tail_line(tail: &mut Tail, alloc: Global, line: Line) -> Result<(), ParseError>
    requires few_kinds { length tail.old.text.kinds ≤ 4 }
    ensures says { Answers (λ _. tail_shown tail.new) result (at_line (line_shown line.entry).number (after_line (tail_shown tail.old) (line_shown line.entry))) }
    ensures kept { tail.new.text ≡ tail.old.text }
{
    match add_tail_line(tail, alloc, line) {
        Ok(()) => Ok(()),
        Err(stop) => Err(stop.at(line.number())),
    }
}
