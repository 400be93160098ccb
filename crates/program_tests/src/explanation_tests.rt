//! What is said on standard error.

use oa_cli::{Refusal, Status, explain};
use oa_text::{Failed, MemorySink};
use std::process::Abort;

fn expect_sentence(rt: &(impl Abort + AllocGlobal), status: Status, sentence: &[u8]) {
    let alloc = rt.alloc();
    let mut errors = MemorySink::new(alloc, 64, Vec::new(alloc));
    assert!(rt; explain(&mut errors, status) == Ok(()));
    assert!(rt; errors.bytes() == sentence);
}

#[test]
fn statuses_are_explained(rt: HostRuntime) {
    expect_sentence(&rt, Status::Done, b"");
    expect_sentence(
        &rt,
        Status::ReadFault,
        b"oa: standard input could not be read to its end, so nothing was judged. Check the file or the pipe, and try again.\n",
    );
    expect_sentence(
        &rt,
        Status::BadDocument { line: 4, fault: 5 },
        b"oa: line 4 is at fault: it names a kind, a field, a root, an initial node or an operation that is not declared. See 'Faults' in docs/language.md.\n",
    );
    let refusal = Refusal {
        rule: 4,
        op: 0,
        wrapup: false,
        at: 12,
    };
    expect_sentence(
        &rt,
        Status::Refused { refusal },
        b"oa: rule N4 is broken at instruction 12 of the generator of operation 0 (both counted from 0): a put writes into a fresh node. See 'N4' in docs/language.md for how to mend it.\n",
    );
}

#[test]
fn kinds_are_explained(rt: HostRuntime) {
    expect_sentence(
        &rt,
        Status::BadDocument { line: 10, fault: 8 },
        b"oa: line 10 is at fault: it names an initial node of another kind than its place refers to. See 'Faults' in docs/language.md.\n",
    );
}

#[test]
fn rejections_are_explained(rt: HostRuntime) {
    expect_sentence(
        &rt,
        Status::Rejected { number: 3, at: 1 },
        b"oa: the certificate is rejected: the replies of caller 1 do not agree with its events: each call that it began has the reply that the events give it, in order, and only that of the last may be left out. Compare its reply lines with its events. See 'Certificates' in docs/language.md.\n",
    );
}

#[test]
fn calls_without_an_answer_are_explained(rt: HostRuntime) {
    expect_sentence(
        &rt,
        Status::Partial,
        b"oa: at least one call has no answer: full (two sweeps freed no slot for its new node), phases (the last phase is over), spent (it used up its fuel, the steps that one call may make) or unreached (an earlier call of its caller was spent). More slots, phases or fuel may answer it: see 'The answers' in docs/language.md.\n",
    );
}

#[test]
fn faults_of_shape_are_explained(rt: HostRuntime) {
    expect_sentence(
        &rt,
        Status::BadShape { number: 2, at: 0 },
        b"oa: the document cannot be run: the slots of each kind of its nodes, and of all kinds together, are not 1 to 4096. See 'What can be run' in docs/language.md.\n",
    );
    expect_sentence(
        &rt,
        Status::BadShape { number: 5, at: 1 },
        b"oa: the document cannot be run: it has more initial nodes of a kind than slots for them. See 'What can be run' in docs/language.md.\n",
    );
    expect_sentence(
        &rt,
        Status::BadShape { number: 8, at: 31 },
        b"oa: line 31: its text has no operation of that name. See 'What can be run' in docs/language.md.\n",
    );
    expect_sentence(
        &rt,
        Status::BadShape { number: 10, at: 4 },
        b"oa: the replay stopped after 4 steps: a turn of the schedule needs a step of a caller that has none to make. See 'What can be run' in docs/language.md.\n",
    );
}

#[test]
fn sentence_that_fails_stops(rt: HostRuntime) {
    let alloc = rt.alloc();
    let Ok(fails) = [2u64].as_slice().to_vec(alloc) else {
        panic!(rt; "memory ran out");
    };
    let mut errors = MemorySink::new(alloc, 4, fails);
    assert!(rt; explain(&mut errors, Status::Memory) == Err(Failed));
    assert!(rt; errors.bytes() == b"oa: ".as_slice());
    assert!(rt; errors.faults() == 1);
}
