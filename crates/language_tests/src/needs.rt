//! What a commit hands over to a wrap-up, worked out by hand. The flaws of targets are rows of `reader_rows`.

ghost use Rattle.std.specs.Prelude.{IfOk};
ghost use Rattle.norm_paths.specs.Found.{IsOpWithin, IsSized};

use norm_lang::list::Listed;
use norm_lang::text::{Instr, Op, Reg};
use norm_paths::OpFacts;
use std::alloc::{AllocError, Global};
use target_flaws::Needs;

const NUM_0: Reg = Reg::Num(0);

const NUM_1: Reg = Reg::Num(1);

const NUM_2: Reg = Reg::Num(2);

const NUM_3: Reg = Reg::Num(3);

const NUM_7: Reg = Reg::Num(7);

const REF_0: Reg = Reg::Ref(0);

/// An operation of a commit and of a wrap-up of five instructions: `n2` is set on one path alone, and `n3` on each.
fn carrying(alloc: Global) -> Result<Op, AllocError>
    ensures within { IfOk result (λ op. IsOpWithin op) }
    ensures sized { IfOk result (λ op. IsSized op.generator × IsSized op.wrapup) }
{
    let generator = Listed::from_vec(vec![in alloc; Instr::Commit(Listed::empty(alloc))]?);
    let wrapup = Listed::from_vec(vec![in alloc;
        Instr::IfLess(NUM_1, NUM_7, 2),
        Instr::Set(NUM_2, 5),
        Instr::IfMarked(REF_0, 0),
        Instr::Add(NUM_3, NUM_2, NUM_0),
        Instr::Return(NUM_3),
    ]?);
    Ok(Op {
        name: Listed::from_slice(alloc, b"x")?,
        args: 1,
        generator,
        wrapup,
    })
}

fn needs_of(alloc: Global, op: &Op) -> Result<Needs, AllocError>
    requires within { IsOpWithin op.now }
    requires sized { IsSized op.now.generator × IsSized op.now.wrapup }
{
    Ok(Needs::of_op(op, &OpFacts::of_op(alloc, op)?))
}

#[test]
fn what_is_used_of_the_commit(rt: HostRuntime) -> Result<(), AllocError> {
    let op = carrying(rt.alloc())?;
    let needs = needs_of(rt.alloc(), &op)?;
    assert!(rt; needs.handed_over == [true, true, true, false, false, false, false, false]);
    assert!(rt; needs.kept == [true, false, false, false, false, false, false, false]);
    Ok(())
}
