//! What is found of the history of a row.

use crate::row::{RowError, history_of};
use histories::{Judgement, judge};
use std::alloc::Global;

/// What is found of the history that a row spells.
pub(crate) fn answer(alloc: Global, line: &str) -> Result<&'static str, RowError> {
    let history = history_of(alloc, line)?;
    match judge(alloc, &history)? {
        Judgement::Legal => Ok("legal"),
        Judgement::NoLegalOrder => Ok("no legal order"),
        Judgement::TooLarge => Ok("too large"),
    }
}
