//! What is made and not read, and the parts of what is read.

use line_words::fault::ParseError;
use norm_lang::text::{Instr, Reg, Text};
use norm_lang::{shipped_queue, show};
use norm_parser::parse;
use std::process::Abort;
use target_code::show_target;
use target_code::target::{Target, TargetInstr};
use target_reader::read_target;

/// The queue's `enqueue`, with its checks and guards.
const ENQUEUE: &[u8] = b"oat 2
kind item
field item value num
field item next ref item
nodes item 1
node 0 null
root head ref item @1
root tail ref item @1
op enqueue 1
gen
root r0 tail
chk
load r1 r0 next
chk
null r2
ifeq r1 r2 11
grd r0
grd r1
chk
casroot tail r0 r1 0
jump 0
new r3 item
chk
put r3 value n0
grd r0
grd r2
grd r3
chk
commit 1
with r0 next r2 r3
wrap
return n0
";

#[tactic(auto, using(crate::proofs::FewLines::few_lines))]
fn read_text(rt: &(impl Abort + AllocGlobal), text: &[u8]) -> Result<Text, ParseError> {
    assert!(rt; text.len() < 1_000_000);
    parse(rt.alloc(), text)
}

#[tactic(auto, using(crate::proofs::FewLines::few_lines))]
fn read(rt: &(impl Abort + AllocGlobal), text: &[u8]) -> Result<Target, ParseError> {
    assert!(rt; text.len() < 1_000_000);
    read_target(rt.alloc(), text)
}

fn expect_text(rt: &(impl Abort + AllocGlobal), text: &Text, spelling: &[u8]) {
    let spelled = show(rt.alloc(), text).expect(rt, "memory ran out");
    assert!(rt; spelled.items() == spelling);
}

fn expect_read_back(rt: &(impl Abort + AllocGlobal), spelling: &[u8]) {
    let text = read_text(rt, spelling).expect(rt, "it is a text");
    expect_text(rt, &text, spelling);
}

#[test]
fn the_queue_is_read_back(rt: HostRuntime) {
    let queue = shipped_queue(rt.alloc()).expect(&rt, "memory ran out");
    let spelling = show(rt.alloc(), &queue).expect(&rt, "memory ran out");
    expect_read_back(&rt, spelling.items());
}

/// The instruction of the first operation's generator at a place.
fn instruction(target: &Target, at: usize) -> Option<&TargetInstr> {
    target.ops.items().first()?.generator.items().get(at)
}

fn expect_instructions(rt: &impl Abort, target: &Target) {
    assert!(rt;
        matches!(
            instruction(target, 5),
            Some(TargetInstr::Plain(Instr::IfEq(Reg::Ref(1), Reg::Ref(2), 11)))
        )
    );
    assert!(rt;
        matches!(
            instruction(target, 6),
            Some(TargetInstr::Guard(Reg::Ref(0)))
        )
    );
    assert!(rt; matches!(instruction(target, 12), Some(TargetInstr::Check)));
    assert!(rt;
        matches!(
            instruction(target, 18),
            Some(TargetInstr::Plain(Instr::Commit(_)))
        )
    );
    assert!(rt; instruction(target, 19).is_none());
}

fn expect_target(rt: &(impl Abort + AllocGlobal), target: &Target, spelling: &[u8]) {
    let spelled = show_target(rt.alloc(), target).expect(rt, "memory ran out");
    assert!(rt; spelled.items() == spelling);
}

#[test]
fn enqueue_is_read_back(rt: HostRuntime) {
    let target = read(&rt, ENQUEUE).expect(&rt, "it is a target");
    expect_instructions(&rt, &target);
    expect_target(&rt, &target, ENQUEUE);
}
