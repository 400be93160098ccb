//! The shipped texts. Texts that are refused, and one that keeps references, are judged in crates above, which read them.

ghost use Rattle.norm_lang.specs.Limits.{IsWithinLimits};

use norm_check::{Normal, check};
use norm_lang::{Text, shipped_queue, shipped_set};
use std::alloc::AllocError;
use std::process::Abort;

// The wrap-ups of the shipped texts use no reference of their generators: the set's use numbers alone, and the queue's
// load the tail again.
fn keeps_none(normal: &Normal, ops: u8) -> bool {
    for op in 0..ops {
        for register in 0..8u8 {
            if (op as usize) < normal.text().ops.items().len() && normal.is_kept(op, register) {
                return false;
            }
        }
    }
    true
}

fn normal_of(rt: &(impl Abort + AllocGlobal), text: Text) -> Normal
    requires { IsWithinLimits text }
{
    check(rt.alloc(), text).expect(rt, "a shipped text is refused")
}

/// The text has so many operations, none of which keeps a reference.
fn expect_ops(rt: &impl Abort, normal: &Normal, ops: u8) {
    assert!(rt; normal.text().ops.items().len() == ops as usize);
    assert!(rt; keeps_none(normal, ops));
}

fn expect_set(rt: &(impl Abort + AllocGlobal), buckets: u32) -> Result<(), AllocError> {
    assert!(rt; 1 <= buckets && buckets <= 64);
    let text = shipped_set(rt.alloc(), buckets)?;
    expect_ops(rt, &normal_of(rt, text), 3);
    Ok(())
}

#[test]
fn sets_are_accepted(rt: HostRuntime) -> Result<(), AllocError> {
    for buckets in [1u32, 2, 8, 64] {
        expect_set(&rt, buckets)?;
    }
    Ok(())
}

#[test]
fn queue_is_accepted(rt: HostRuntime) -> Result<(), AllocError> {
    let text = shipped_queue(rt.alloc())?;
    expect_ops(&rt, &normal_of(&rt, text), 2);
    Ok(())
}
