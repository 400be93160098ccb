//! The operations of a target.

ghost use Rattle.std.specs.Prelude.{◌≡◌, Some, map, slice_get, IfOk};
ghost use Rattle.target_code.specs.TargetLimits.{IsTargetWithinLimits};
ghost use Rattle.c_emission.specs.Operations.{operation_lines};

use crate::operations::operation;
use c_language::lines::Line;
use caller_parts::Program;
use norm_lang::list::Listed;
use std::alloc::{AllocError, Global};
use target_code::target::{Target, TargetOp};

/// The lines of the operation with a number.
fn numbered(
    alloc: Global,
    target: &Target,
    program: &Program,
    number: u8,
    op: &TargetOp,
) -> Result<Listed<Line>, AllocError>
    requires same { program.now ≡ target.now }
    requires within { IsTargetWithinLimits target.now }
    requires stands { slice_get target.now.ops number ≡ Some op.now }
    ensures { IfOk result (λ lines. lines ≡ operation_lines target.now op.now) }
{
    let kept = program.kept_by(number);
    let lines = operation(alloc, target, op, kept)?;
    Ok(Listed::from_vec(lines))
}

/// The lines of each operation of a target, given also as the program that callers run.
///
/// # Errors
/// Memory ran out.
#[tactic(auto, using(crate::proofs::Small::few_ops, norm_check::proofs::Tables::item_stands))]
pub fn operations_of(
    alloc: Global,
    target: &Target,
    program: &Program,
) -> Result<Vec<Listed<Line>>, AllocError>
    requires same { program.now ≡ target.now }
    requires within { IsTargetWithinLimits target.now }
    ensures { IfOk result (λ functions. functions.items ≡ map (operation_lines target.now) target.now.ops) }
{
    let mut functions = Vec::new(alloc);
    for (number, op) in target.ops.items().iter().enumerate() {
        let lines = numbered(alloc, target, program, number as u8, op)?;
        functions.push(lines)?;
    }
    Ok(functions)
}
