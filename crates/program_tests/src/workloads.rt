//! The counts of workloads, worked out with std's ordered set.

use std::alloc::{AllocError, Global};
use std::collections::BTreeSet;
use std::test::Fail;

/// Makes one call on the keys, and tells whether it replies 1.
fn reply(keys: &mut BTreeSet<u64>, place: u32, key: u64, before: u64) -> Result<bool, AllocError> {
    if place == 0 {
        match keys.insert(key) {
            Ok(is_new) => Ok(is_new),
            Err(_) => Err(AllocError),
        }
    } else if place == 1 {
        Ok(keys.contains(&key))
    } else if place == 2 {
        Ok(keys.remove(&before))
    } else {
        Ok(keys.contains(&before))
    }
}

/// How many of a caller's first calls reply 1.
fn ones(alloc: Global, caller: u64, count: u32) -> Result<u32, AllocError> {
    let mut keys = BTreeSet::new(alloc);
    let mut seed = caller.saturating_add(1);
    let first = caller.saturating_mul(1000);
    let mut before = first.saturating_add(seed % 50);
    let mut found = 0u32;
    for i in 0..count {
        let key = first.saturating_add(seed % 50);
        if reply(&mut keys, i % 4, key, before)? {
            found = found.saturating_add(1);
        }
        if i % 4 == 3 {
            before = key;
            seed = seed.saturating_mul(75).saturating_add(74) % 65537;
        }
    }
    Ok(found)
}

fn ones_of_all(alloc: Global, callers: u64, count: u32) -> Result<u32, AllocError> {
    let mut found = 0u32;
    for caller in 0..callers {
        found = found.saturating_add(ones(alloc, caller, count)?);
    }
    Ok(found)
}

/// The counts that stand in the rows of `command_rows`, the largest workload among them.
#[test]
fn an_ordered_set_replies_as_often(rt: HostRuntime) -> Result<(), Fail> {
    let alloc = rt.alloc();
    assert!(rt; ones_of_all(alloc, 2, 8)? == 10);
    assert!(rt; ones(alloc, 0, 8)? == 5);
    assert!(rt; ones_of_all(alloc, 4, 100)? == 288);
    assert!(rt; ones(alloc, 0, 100)? == 72);
    assert!(rt; ones_of_all(alloc, 2, 2000)? == 2950);
    assert!(rt; ones(alloc, 0, 2001)? == 1476);
    assert!(rt; ones_of_all(alloc, 8, 2000)? == 11806);
    assert!(rt; ones(alloc, 0, 100_000)? == 73955);
    Ok(())
}
