//! A text of two kinds, worked out by hand: what may have which kind, and where they mix.

ghost use Rattle.std.specs.Prelude.{IfOk};
ghost use Rattle.norm_paths.specs.Found.{IsOpWithin};

use kind_rules::{KindFacts, mixes_kinds};
use norm_lang::list::Listed;
use norm_lang::text::{CasEntry, FieldKind, Instr, Op, Place, Reg, RootDecl, Start};
use std::alloc::{AllocError, Global};
use std::process::Abort;

const REF_0: Reg = Reg::Ref(0);

const REF_1: Reg = Reg::Ref(1);

const EXCHANGE: CasEntry = CasEntry {
    place: Place::Root(1),
    expected: REF_1,
    replacement: REF_0,
    retire: None,
};

/// An operation that puts what root 0 holds in place of null under root 1.
fn moving(alloc: Global) -> Result<Op, AllocError>
    ensures { IfOk result (λ op. IsOpWithin op) }
{
    let generator = Listed::from_vec(vec![in alloc;
        Instr::LoadRoot(REF_0, 0),
        Instr::Null(REF_1),
        Instr::Cas(EXCHANGE, 3),
        Instr::Commit(Listed::empty(alloc)),
    ]?);
    Ok(Op {
        name: Listed::from_slice(alloc, b"x")?,
        args: 0,
        generator,
        wrapup: Listed::from_vec(vec![in alloc; Instr::ReturnNone]?),
    })
}

fn root_to(alloc: Global, kind: u8) -> Result<RootDecl, AllocError> {
    Ok(RootDecl {
        name: Listed::from_slice(alloc, b"a")?,
        kind: FieldKind::Reference(kind),
        start: Start::Node(0),
    })
}

/// Whether the exchange mixes kinds, if the roots refer to these.
fn exchange_mixes(alloc: Global, op: &Op, first: u8, second: u8) -> Result<bool, AllocError>
    requires { IsOpWithin op.now }
{
    let roots = [root_to(alloc, first)?, root_to(alloc, second)?];
    let kinds = [
        KindFacts::of_op(alloc, &[], &roots, op, 0)?,
        KindFacts::of_op(alloc, &[], &roots, op, 1)?,
    ];
    Ok(mixes_kinds(&[], &roots, false, 2, &Instr::Cas(EXCHANGE, 3), &kinds))
}

#[test]
fn an_exchange_mixes_kinds(rt: HostRuntime) -> Result<(), AllocError> {
    let op = moving(rt.alloc())?;
    assert!(rt; exchange_mixes(rt.alloc(), &op, 0, 1)?);
    assert!(rt; exchange_mixes(rt.alloc(), &op, 1, 0)?);
    assert!(rt; !exchange_mixes(rt.alloc(), &op, 0, 0)?);
    assert!(rt; !exchange_mixes(rt.alloc(), &op, 1, 1)?);
    Ok(())
}
