//! How outcomes, callers and entries are told.

use caller_steps::Reply;
use row_replies::add_replies;
use row_spelling::RowError;
use std::alloc::AllocError;
use std::fmt::Write;
use word_runner::Outcome;

/// How a caller's going on ended, if it could.
pub(crate) fn add_outcome(out: &mut String, outcome: Option<Outcome>) -> Result<(), AllocError> {
    match outcome {
        Some(Outcome::Replied(Some(number))) => write!(out, "Replied(Some({number})), "),
        Some(Outcome::Replied(None)) => out.push_str("Replied(None), "),
        Some(Outcome::Full) => out.push_str("Full, "),
        Some(Outcome::PhasesOver(phase)) => write!(out, "PhasesOver({phase}), "),
        Some(Outcome::Spent) => out.push_str("Spent, "),
        None => out.push_str("no step, "),
    }
}

/// How a caller stands.
pub(crate) fn add_caller(
    out: &mut String,
    number: u32,
    is_idle: bool,
    spare: u32,
) -> Result<(), RowError> {
    let state = if is_idle { "idle" } else { "runs" };
    Ok(writeln!(out, "caller {number} {state}, spare {spare}")?)
}

/// What an entry has counted, and its replies.
pub(crate) fn add_entry(
    out: &mut String,
    claims: u64,
    restarts: u64,
    replies: &[Reply],
) -> Result<(), RowError> {
    write!(out, "claims {claims}, restarts {restarts}, ")?;
    Ok(add_replies(out, replies)?)
}
