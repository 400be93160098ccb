//! What a line adds to a draft.

ghost use Rattle.std.specs.Prelude.{◌≤◌, length};
ghost use Rattle.norm_lang.specs.Faults.{at_line};
ghost use Rattle.norm_lang.specs.Grammar.{after_words, after_line};
ghost use Rattle.oa_text.specs.Shown.{line_shown};
ghost use Rattle.line_words.specs.Answered.{Gives, Answers};
ghost use Rattle.norm_parser.specs.DraftShown.{draft_shown};

use crate::draft::Draft;
use crate::sections::in_place;
use line_words::fault::{ParseError, Stop};
use line_words::words::Words;
use oa_text::Line;
use std::alloc::Global;

#[tactic(auto, using(crate::proofs::LineReads::words_skipped, crate::proofs::LineReads::words_placed))]
fn read_words(draft: &mut Draft, alloc: Global, mut words: Words) -> Result<(), Stop>
    requires few_kinds { length draft.old.text.kinds ≤ 4 }
    requires few_fields { length draft.old.text.fields ≤ 16 }
    requires few_roots { length draft.old.text.roots ≤ 256 }
    requires few_owners { length draft.old.owners ≤ 256 }
    ensures { Gives (λ _. draft_shown draft.new) result (after_words (draft_shown draft.old) words.entry) }
{
    match words.first() {
        None => Ok(()),
        Some(word) => in_place(draft, alloc, word, words),
    }
}

#[tactic(auto, using(crate::proofs::LineReads::line_plain, crate::proofs::LineReads::line_faulty))]
fn add_text_line(draft: &mut Draft, alloc: Global, line: Line) -> Result<(), Stop>
    requires few_kinds { length draft.old.text.kinds ≤ 4 }
    requires few_fields { length draft.old.text.fields ≤ 16 }
    requires few_roots { length draft.old.text.roots ≤ 256 }
    requires few_owners { length draft.old.owners ≤ 256 }
    ensures { Gives (λ _. draft_shown draft.new) result (after_line (draft_shown draft.old) (line_shown line.entry)) }
{
    read_words(draft, alloc, Words::new(line)?)
}

/// Adds what a line declares. A line that is skipped adds nothing, and its bytes are judged.
///
/// # Errors
///
/// `Fault` if the line may not stand there: its number, and its first fault. `Memory` if memory runs out.
pub fn read_text_line(draft: &mut Draft, alloc: Global, line: Line) -> Result<(), ParseError>
    requires few_kinds { length draft.old.text.kinds ≤ 4 }
    requires few_fields { length draft.old.text.fields ≤ 16 }
    requires few_roots { length draft.old.text.roots ≤ 256 }
    requires few_owners { length draft.old.owners ≤ 256 }
    ensures { Answers (λ _. draft_shown draft.new) result (at_line (line_shown line.entry).number (after_line (draft_shown draft.old) (line_shown line.entry))) }
{
    match add_text_line(draft, alloc, line) {
        Ok(()) => Ok(()),
        Err(stop) => Err(stop.at(line.number())),
    }
}
