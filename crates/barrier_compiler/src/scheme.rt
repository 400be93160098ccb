//! Compiling, method by method.

ghost use Rattle.std.specs.Prelude.{◌≡◌, ◌∷◌, [], ◌++◌, length, map, Some, slice_get, IfOk};
ghost use Rattle.norm_lang.specs.declared.text.Op.{Op};
ghost use Rattle.target_code.specs.Barred.{IsBarred};
ghost use Rattle.target_code.specs.TargetLimits.{IsTargetWithinLimits};
ghost use Rattle.target_code.specs.Blocks.{laid_out, scheme_op};
ghost use Rattle.target_code.specs.SecondScheme.{second_marks, second_scheme};
ghost use Rattle.norm_paths.specs.Found.{IsOpWithin};
ghost use Rattle.barrier_compiler.specs.Building.{kept_references};
ghost use Rattle.barrier_compiler.specs.Sized.{IsShort};

use crate::blocks::{blocks_of, linked};
use crate::guards::kept_references;
use norm_check::Normal;
use norm_lang::duplicate::Duplicate;
use norm_lang::list::Listed;
use norm_lang::text::{Fields, Instr, Kinds, Nodes, Op, Reg, Roots, Text};
use std::alloc::{AllocError, Global};
use target_code::target::{Target, TargetCode, TargetOp, TargetOps};

/// Compiles a method whose operation keeps these references.
#[tactic(auto, using(crate::proofs::Linking::near, crate::proofs::Linking::linked_is))]
fn compile_code(
    alloc: Global,
    kept: &[Reg],
    instrs: &[Instr],
    op: &Op,
) -> Result<TargetCode, AllocError>
    requires kept { kept.now ≡ kept_references op.now }
    requires short { IsShort op.now (second_marks instrs.now) }
    ensures { IfOk result (λ code. code ≡ laid_out op.now (second_marks instrs.now)) }
{
    let blocks = blocks_of(alloc, kept, instrs)?;
    linked(alloc, &blocks)
}

/// Compiles both methods of an operation that keeps these references, the generator first.
#[tactic(auto, using(crate::proofs::Short::generator_short, crate::proofs::Short::wrapup_short))]
fn compile_methods(
    alloc: Global,
    kept: &[Reg],
    op: &Op,
) -> Result<(TargetCode, TargetCode), AllocError>
    requires kept { kept.now ≡ kept_references op.now }
    requires within { IsOpWithin op.now }
    ensures generator { IfOk result (λ codes. codes.0 ≡ laid_out op.now (second_marks op.now.generator)) }
    ensures wrapup { IfOk result (λ codes. codes.1 ≡ laid_out op.now (second_marks op.now.wrapup)) }
{
    let generator = compile_code(alloc, kept, op.generator.items(), op)?;
    let wrapup = compile_code(alloc, kept, op.wrapup.items(), op)?;
    Ok((generator, wrapup))
}

/// Compiles an operation that keeps these references.
fn compile_by(alloc: Global, kept: &[Reg], op: &Op) -> Result<TargetOp, AllocError>
    requires kept { kept.now ≡ kept_references op.now }
    requires within { IsOpWithin op.now }
    ensures { IfOk result (λ compiled. compiled ≡ scheme_op second_marks op.now) }
{
    let name = op.name.duplicate(alloc)?;
    let (generator, wrapup) = compile_methods(alloc, kept, op)?;
    Ok(TargetOp {
        name,
        args: op.args,
        generator,
        wrapup,
    })
}

fn compile_op(alloc: Global, normal: &Normal, number: u8, op: &Op) -> Result<TargetOp, AllocError>
    requires stands { slice_get normal.now.ops number ≡ Some op.now }
    requires within { IsOpWithin op.now }
    ensures { IfOk result (λ compiled. compiled ≡ scheme_op second_marks op.now) }
{
    let kept = kept_references(alloc, normal, number, op)?;
    compile_by(alloc, &kept, op)
}

/// Compiles the operations of a text, and adds them.
#[tactic(auto, using(norm_paths::proofs::Founding::op_within, norm_check::proofs::Tables::few_ops, norm_check::proofs::Tables::item_stands))]
fn add_ops(compiled: &mut TargetOps, alloc: Global, normal: &Normal) -> Result<(), AllocError>
    ensures { IfOk result (λ _. compiled.new ≡ compiled.old ++ map (scheme_op second_marks) normal.now.ops) }
{
    let ops = normal.text().ops.items();
    for (number, op) in ops.iter().enumerate() {
        let op = compile_op(alloc, normal, number as u8, op)?;
        compiled.push(op)?;
    }
    Ok(())
}

/// The kinds and the fields of a text.
fn shapes(alloc: Global, text: &Text) -> Result<(Kinds, Fields), AllocError>
    ensures kinds { IfOk result (λ shapes. shapes.0 ≡ text.now.kinds) }
    ensures fields { IfOk result (λ shapes. shapes.1 ≡ text.now.fields) }
{
    let kinds = text.kinds.duplicate(alloc)?;
    let fields = text.fields.duplicate(alloc)?;
    Ok((kinds, fields))
}

/// The roots and the nodes of a text.
fn places(alloc: Global, text: &Text) -> Result<(Roots, Nodes), AllocError>
    ensures roots { IfOk result (λ places. places.0 ≡ text.now.roots) }
    ensures nodes { IfOk result (λ places. places.1 ≡ text.now.nodes) }
{
    let roots = text.roots.duplicate(alloc)?;
    let nodes = text.nodes.duplicate(alloc)?;
    Ok((roots, nodes))
}

/// The declarations of a text, as a target without operations.
fn declared(alloc: Global, text: &Text) -> Result<Target, AllocError>
    ensures { IfOk result (λ target. target ≡ record { kinds = text.now.kinds; fields = text.now.fields; roots = text.now.roots; nodes = text.now.nodes; ops = [] }) }
{
    let (kinds, fields) = shapes(alloc, text)?;
    let (roots, nodes) = places(alloc, text)?;
    Ok(Target {
        kinds,
        fields,
        roots,
        nodes,
        ops: Listed::empty(alloc),
    })
}

/// The target of a text in normal form, given both as such and as a text.
fn compile_text(alloc: Global, normal: &Normal, text: &Text) -> Result<Target, AllocError>
    requires { text.now ≡ normal.now }
    ensures { IfOk result (λ target. target ≡ second_scheme normal.now) }
{
    let mut target = declared(alloc, text)?;
    add_ops(&mut target.ops, alloc, normal)?;
    Ok(target)
}

/// Compiles a text in normal form by combined checks, after Cohen and Petrank (SPAA 2015): what an instruction reads from a node
/// is checked before it is used, together with what was read since the last check, and what it exchanges is guarded right
/// before it. The result is barred for the text, and within the limits. The cost grows with the square of a method's count
/// of instructions.
///
/// # Errors
/// `AllocError` if memory runs out; nothing else is refused.
pub fn compile(alloc: Global, normal: &Normal) -> Result<Target, AllocError>
    ensures same { IfOk result (λ target. target ≡ second_scheme normal.now) }
    ensures barred { IfOk result (λ target. IsBarred target normal.now) }
    ensures within { IfOk result (λ target. IsTargetWithinLimits target) }
{
    let text = normal.text();
    let target = compile_text(alloc, normal, text)?;
    Ok(target)
}
