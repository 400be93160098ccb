//! The flaws of an instruction of a target's operation.

ghost use Rattle.std.specs.Prelude.{◌≡◌, Some, slice_get, IfOk};
ghost use Rattle.std.specs.String.{string_bytes};
ghost use Rattle.target_code.specs.Paths.{target_code_of};
ghost use Rattle.reader_rows.specs.Answers.{needs_of, AreFlaws, IsFlawsAnswer};

use crate::rules::listed;
use row_spelling::RowError;
use std::alloc::Global;
use target_code::target::{TargetInstr, TargetOp, target_code_of};
use target_flaws::{Needs, TargetFacts, flaws};

const FLAWS: [&str; 4] = ["unchecked", "unguarded", "late", "dropped"];

/// What a wrap-up uses of what its generator leaves: nothing, or `n1` and `r3`.
fn needs_of(carried: bool) -> Needs
    ensures { result ≡ needs_of carried }
{
    if carried {
        Needs {
            handed_over: [false, true, false, false, false, false, false, false],
            kept: [false, false, false, true, false, false, false, false],
        }
    } else {
        Needs {
            handed_over: [false, false, false, false, false, false, false, false],
            kept: [false, false, false, false, false, false, false, false],
        }
    }
}

/// The flaws of an instruction of a method, at its place.
fn found(
    alloc: Global,
    op: &TargetOp,
    carried: bool,
    wrapup: bool,
    at: usize,
    instr: &TargetInstr,
) -> Result<[bool; 4], RowError>
    requires { slice_get (target_code_of op.now wrapup) at ≡ Some instr.now }
    ensures { IfOk result (λ found. AreFlaws (needs_of carried) wrapup (target_code_of op.now wrapup) at instr.now found) }
{
    let needs = needs_of(carried);
    let code = target_code_of(op, wrapup);
    if code.is_empty() || 64 <= code.len() {
        return Err(RowError::Wrong);
    }
    let facts = TargetFacts::of_code(alloc, code)?;
    Ok(flaws(&needs, &facts, wrapup, at, instr))
}

/// The names of the flaws of the instruction at a place of a method.
pub(crate) fn flaws_answer(
    alloc: Global,
    op: &TargetOp,
    carried: bool,
    wrapup: bool,
    at: usize,
) -> Result<String, RowError>
    ensures { IfOk result (λ answer. IsFlawsAnswer (needs_of carried) wrapup (target_code_of op.now wrapup) at (string_bytes answer)) }
{
    let Some(instr) = target_code_of(op, wrapup).get(at) else {
        return Err(RowError::Wrong);
    };
    let found = found(alloc, op, carried, wrapup, at, instr)?;
    Ok(listed(alloc, &FLAWS, &found)?)
}
