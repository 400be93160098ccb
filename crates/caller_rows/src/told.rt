//! How accesses and entries are told.

use crate::steps::Stepped;
use oa_core::{Entry, Sign, StepKind};
use phase_pools::access::Access;
use std::alloc::AllocError;
use std::fmt::Write;

/// What a caller's step accesses.
pub(crate) fn add_access(out: &mut String, access: Access) -> Result<(), AllocError> {
    match access {
        Access::Load { at } => write!(out, "Load {{ at: {at} }}, "),
        Access::Store { at, word } => write!(out, "Store {{ at: {at}, word: {word} }}, "),
        Access::CompareExchange {
            at,
            expected,
            replacement,
        } => write!(
            out,
            "CompareExchange {{ at: {at}, expected: {expected}, replacement: {replacement} }}, "
        ),
        Access::FetchMax { at, word } => write!(out, "FetchMax {{ at: {at}, word: {word} }}, "),
    }
}

fn add_kind(out: &mut String, kind: Option<StepKind>) -> Result<(), AllocError> {
    out.push_str(match kind {
        Some(StepKind::Load) => "load",
        Some(StepKind::Check) => "check",
        Some(StepKind::Exchange) => "exchange",
        None => "other",
    })
}

/// The kind of a step's access, and what the step tells the source machine.
fn add_signs(out: &mut String, kind: Option<StepKind>, signs: &[Sign]) -> Result<(), AllocError> {
    add_kind(out, kind)?;
    for sign in signs {
        write!(out, " {sign:?}")?;
    }
    out.push_str(", ")
}

/// What a step was, by its access or by its kind and its signs. If there was none, that is told.
pub(crate) fn add_step(
    out: &mut String,
    by_signs: bool,
    step: Option<Stepped>,
) -> Result<(), AllocError> {
    match step {
        Some(step) => {
            if by_signs {
                add_signs(out, step.kind, step.signs.items())
            } else {
                add_access(out, step.access)
            }
        }
        None => out.push_str("no step, "),
    }
}

/// How an entry stands, in a line.
pub(crate) fn add_entry(out: &mut String, entry: &Entry) -> Result<(), AllocError> {
    let state = if entry.is_idle() { "idle" } else { "runs" };
    let replies = entry.replies().len();
    let spare = entry.spare();
    let claims = entry.claims();
    let restarts = entry.restarts();
    writeln!(
        out,
        "{state}, replies {replies}, spare {spare}, claims {claims}, restarts {restarts}"
    )
}
