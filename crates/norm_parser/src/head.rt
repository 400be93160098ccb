//! The declarations before a target's operations.

ghost use Rattle.std.specs.Prelude.{◌≡◌};
ghost use Rattle.line_words.specs.Answered.{Reads};
ghost use Rattle.norm_parser.specs.DraftShown.{draft_shown};
ghost use Rattle.norm_parser.specs.FrontRead.{head_of, whole_head};

use crate::draft::{Draft, Section, text_of};
use line_words::fault::Fault;
use norm_lang::text::{Fields, Kinds, Nodes, Roots, Text};

/// What kind, field, nodes, node and root lines declare.
#[derive(Drop)]
pub struct Head {
    pub kinds: Kinds,
    pub fields: Fields,
    pub roots: Roots,
    pub nodes: Nodes,
}

/// The declarations of a text, if it may end with them.
fn head_of(text: Text, whole: bool) -> Result<Head, Fault>
    ensures { Reads (λ head. head) result (head_of text whole) }
{
    if whole {
        Ok(Head {
            kinds: text.kinds,
            fields: text.fields,
            roots: text.roots,
            nodes: text.nodes,
        })
    } else {
        Err(Fault::Form)
    }
}

/// Whether no further line must follow the declarations.
fn is_whole(draft: &Draft) -> bool
    ensures { whole_head (draft_shown draft.now) ≡ head_of draft.now.text result }
{
    match draft.section {
        Section::Roots => !draft.text.roots.items().is_empty(),
        _ => false,
    }
}

/// The declarations of a draft, unless a further line must follow.
pub(crate) fn whole_head(draft: Draft) -> Result<Head, Fault>
    ensures { Reads (λ head. head) result (whole_head (draft_shown draft)) }
{
    let whole = is_whole(&draft);
    head_of(text_of(draft), whole)
}
