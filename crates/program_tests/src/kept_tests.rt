//! Which references a wrap-up keeps, worked out by hand.

use norm_check::{Normal, check};
use norm_parser::parse;
use std::process::Abort;

/// The wrap-up reads r0 and r2 as they were at the commit. It sets r3 and r4 before it reads them, and r1 is only the
/// generator's.
const KEEPS_TWO: &[u8] = b"oa 1
field next ref
nodes 0
root h ref null
op x 0
gen
root r0 h
root r1 h
root r2 h
root r3 h
commit 0
wrap
null r3
root r4 h
ifmarked r0 6
ifeq r3 r2 6
load r4 r4 next
ifeq r3 r4 1
returnnone
";

#[tactic(auto, using(crate::proofs::ShortTexts::few_lines))]
fn normal_of(rt: &(impl Abort + AllocGlobal), bytes: &[u8]) -> Normal {
    assert!(rt; bytes.len() < 1_000_000);
    let Ok(text) = parse(rt.alloc(), bytes) else {
        panic!(rt; "the text isn't in the grammar");
    };
    let Ok(normal) = check(rt.alloc(), text) else {
        panic!(rt; "the text is refused");
    };
    normal
}

fn expect_kept(rt: &impl Abort, normal: &Normal, kept: &[bool; 8]) {
    assert!(rt; normal.text().ops.items().len() == 1);
    for register in 0..8u8 {
        assert!(rt; normal.is_kept(0, register) == kept[register as usize]);
    }
}

#[test]
fn kept_references_are_told(rt: HostRuntime) {
    let kept = [true, false, true, false, false, false, false, false];
    expect_kept(&rt, &normal_of(&rt, KEEPS_TWO), &kept);
}
