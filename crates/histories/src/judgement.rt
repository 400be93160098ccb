//! Whether a history is legal.

ghost use Rattle.std.specs.Prelude.{◌≤◌, length, IfOk, OnErr};
ghost use Rattle.histories.specs.Histories.{IsHistoryJudged, most_calls};

use crate::call::Call;
use crate::limits::MOST_CALLS;
use crate::orders::has_legal_order;
use crate::shared::Shared;
use std::alloc::{AllocError, Global};

/// What is found of a history.
#[derive(Clone, Copy)]
pub enum Judgement {
    /// There is an order in which each answer is right.
    Legal,
    /// There is none.
    NoLegalOrder,
    /// It has too many calls to be searched.
    TooLarge,
}

/// Looks for an order of a history's calls, each caller's in its own, in which a set and a queue that are empty at first give each
/// answer. A history of more than ten calls isn't searched.
///
/// # Errors
/// Memory ran out. This is never said of a history of more than ten calls, which needs none.
pub fn judge(alloc: Global, history: &[Call]) -> Result<Judgement, AllocError>
    ensures judged { IfOk result (IsHistoryJudged history.now) }
    ensures err { OnErr result (length history.now ≤ most_calls) }
{
    if MOST_CALLS < history.len() {
        return Ok(Judgement::TooLarge);
    }
    if has_legal_order(alloc, &Shared::new(alloc), history)? {
        Ok(Judgement::Legal)
    } else {
        Ok(Judgement::NoLegalOrder)
    }
}
