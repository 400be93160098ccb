//! Callers who meet at a gate: two callers stand in it at once, so they run on two threads.

use crate::asked::says;
use oa_cli::Status;
use oa_text::Gate;
use std::sync::atomic::{AtomicU64, Ordering};
use std::test::Fail;

/// For how many turns a caller is held at most.
const TURNS: u64 = 500_000_000;

/// A gate that holds each pass of the callers 0 and 1 until the other's pass of the same index has begun. A caller's passes begin in
/// the order of their indices.
#[derive(Drop)]
struct Meeting {
    begun_by_0: AtomicU64,
    begun_by_1: AtomicU64,
    met: AtomicU64,
}

impl Meeting {
    fn new() -> Meeting {
        Meeting {
            begun_by_0: AtomicU64::new(0),
            begun_by_1: AtomicU64::new(0),
            met: AtomicU64::new(0),
        }
    }

    /// How many passes a caller has begun.
    fn begun(&self, caller: u32) -> &AtomicU64 {
        if caller == 0 {
            &self.begun_by_0
        } else {
            &self.begun_by_1
        }
    }

    fn passes(&self) -> u64 {
        let first = self.begun_by_0.load(Ordering::SeqCst);
        first.saturating_add(self.begun_by_1.load(Ordering::SeqCst))
    }
}

impl Gate for Meeting {
    fn pass(&self, caller: u32, index: u32) {
        self.begun(caller).fetch_add(1, Ordering::SeqCst);
        let other = if caller == 0 { 1 } else { 0 };
        for _ in 0..TURNS {
            if self.begun(other).load(Ordering::SeqCst) > index as u64 {
                self.met.fetch_add(1, Ordering::SeqCst);
                return;
            }
        }
    }
}

const TWO_CALLERS: &[u8] =
    b"oa 1\nfield pad num\nnodes 0\nroot total num 0\nop add 1\ngen\nroot n1 total\nadd n2 n1 n0\ncommit 1\nwithroot total n1 n2\nwrap\nset n3 0\nifeq n7 n3 3\nreturn n2\nagain\nop nop 0\ngen\ncommit 0\nwrap\nreturnnone\nscript 0\nnop\nnop\nscript 1\nnop\nnop\n";

const FOUR_REPLIES: &[u8] =
    b"0 0 nop: none\n0 1 nop: none\n1 0 nop: none\n1 1 nop: none\nreplies 4 short 0 phase 1 claims 0 restarts 0\n";

#[test]
fn callers_meet_at_the_gate(rt: HostRuntime) -> Result<(), Fail> {
    let gate = Meeting::new();
    says(
        &rt,
        rt.alloc(),
        &["run"],
        TWO_CALLERS,
        &gate,
        Status::Done,
        FOUR_REPLIES,
    )?;
    assert!(rt; gate.passes() == 4);
    assert!(rt; gate.met.load(Ordering::SeqCst) == 4);
    Ok(())
}

#[test]
fn callers_meet_at_the_gate_under_epochs(rt: HostRuntime) -> Result<(), Fail> {
    let gate = Meeting::new();
    says(
        &rt,
        rt.alloc(),
        &["epochs"],
        TWO_CALLERS,
        &gate,
        Status::Done,
        FOUR_REPLIES,
    )?;
    assert!(rt; gate.passes() == 4);
    assert!(rt; gate.met.load(Ordering::SeqCst) == 4);
    Ok(())
}

/// A gate that holds the first pass of caller 0 until the third of caller 1 has begun, and the first of caller 1 until that of caller 0
/// has.
#[derive(Drop)]
struct Late {
    begun_by_0: AtomicU64,
    begun_by_1: AtomicU64,
}

impl Late {
    fn new() -> Late {
        Late {
            begun_by_0: AtomicU64::new(0),
            begun_by_1: AtomicU64::new(0),
        }
    }

    /// Waits until a caller has begun more passes than so many, or for as long as a caller is held at most.
    fn wait(&self, begun: &AtomicU64, passes: u64) {
        for _ in 0..TURNS {
            if begun.load(Ordering::SeqCst) > passes {
                return;
            }
        }
    }
}

impl Gate for Late {
    fn pass(&self, caller: u32, index: u32) {
        let begun = if caller == 0 {
            &self.begun_by_0
        } else {
            &self.begun_by_1
        };
        begun.fetch_add(1, Ordering::SeqCst);
        if index > 0 {
            return;
        }
        if caller == 0 {
            self.wait(&self.begun_by_1, 2);
        } else {
            self.wait(&self.begun_by_0, 0);
        }
    }
}

/// Caller 0 is held before its call until caller 1 has put 5 in. Were the gate passed after a call, caller 0 would be the first.
#[test]
fn calls_come_after_the_gate(rt: HostRuntime) -> Result<(), Fail> {
    says(
        &rt,
        rt.alloc(),
        &["run"],
        b"oa 1\nuse list\nscript 0\ninsert 5\nscript 1\ncontains 9\ninsert 5\ncontains 9\n",
        &Late::new(),
        Status::Done,
        b"0 0 insert 5: 0\n1 0 contains 9: 0\n1 1 insert 5: 1\n1 2 contains 9: 0\nreplies 4 short 0 phase 1 claims 1 restarts 0\n",
    )
}

/// A gate that counts all passes and those of each caller's first call, and remembers the index of the last pass.
#[derive(Drop)]
struct Counting {
    passes: AtomicU64,
    firsts: AtomicU64,
    last: AtomicU64,
}

impl Counting {
    fn new() -> Counting {
        Counting {
            passes: AtomicU64::new(0),
            firsts: AtomicU64::new(0),
            last: AtomicU64::new(0),
        }
    }
}

impl Gate for Counting {
    fn pass(&self, _caller: u32, index: u32) {
        self.passes.fetch_add(1, Ordering::SeqCst);
        if index == 0 {
            self.firsts.fetch_add(1, Ordering::SeqCst);
        }
        self.last.store(index as u64, Ordering::SeqCst);
    }
}

/// The first part has at most 2,000 calls a caller, and the second one all 2,001, of caller 0 alone. So each part was run once, the second
/// one last.
#[test]
fn a_workload_passes_the_gate_in_both_parts(rt: HostRuntime) -> Result<(), Fail> {
    let gate = Counting::new();
    says(
        &rt,
        rt.alloc(),
        &["workload", "2001", "2"],
        b"",
        &gate,
        Status::Done,
        b"part 1 callers 2 operations 4000 ones 2950 zeros 1050 short 0\npart 2 operations 2001 ones 1476 zeros 525 short 0 phase 70 claims 489 restarts 69\n",
    )?;
    assert!(rt; gate.passes.load(Ordering::SeqCst) == 6001);
    assert!(rt; gate.firsts.load(Ordering::SeqCst) == 3);
    assert!(rt; gate.last.load(Ordering::SeqCst) == 2000);
    Ok(())
}
