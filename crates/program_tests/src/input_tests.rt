//! How many reads are made: none after the end, after a fault, or once the limit's bytes were read.

use oa_cli::input::{InputError, read_input};
use oa_text::MemorySource;
use std::process::Abort;
use std::test::Fail;

const FIVE: &[u8] = b"abcde";

fn is_answered(found: &Result<Vec<u8>, InputError>, wanted: Result<&[u8], InputError>) -> bool {
    match found {
        Ok(bytes) => wanted == Ok(bytes.as_slice()),
        Err(error) => wanted == Err(*error),
    }
}

// Reads five bytes, two a call, up to a limit, and compares the answer and the count of reads.
fn expect_reads(
    rt: &(impl Abort + AllocGlobal),
    fails: &[u64],
    limit: usize,
    bytes: Result<&[u8], InputError>,
    reads: u64,
) -> Result<(), Fail> {
    assert!(rt; limit < 1000);
    let alloc = rt.alloc();
    let mut source = MemorySource::new(FIVE.to_vec(alloc)?, 2, fails.to_vec(alloc)?);
    let found = read_input(alloc, &mut source, limit);
    assert!(rt; is_answered(&found, bytes));
    assert!(rt; source.calls() == reads);
    Ok(())
}

#[test]
fn no_read_is_made_after_the_last(rt: HostRuntime) -> Result<(), Fail> {
    // The fourth read finds the end; at a limit of five the third gives the last byte.
    expect_reads(&rt, &[], 100, Ok(FIVE), 4)?;
    expect_reads(&rt, &[], 5, Ok(FIVE), 3)?;
    expect_reads(&rt, &[4], 5, Ok(FIVE), 3)?;
    expect_reads(&rt, &[], 4, Ok(b"abcd"), 2)?;
    expect_reads(&rt, &[3], 4, Ok(b"abcd"), 2)?;
    expect_reads(&rt, &[], 0, Ok(b""), 0)?;
    expect_reads(&rt, &[1], 100, Err(InputError::Fault), 1)?;
    expect_reads(&rt, &[2], 100, Err(InputError::Fault), 2)?;
    expect_reads(&rt, &[4], 100, Err(InputError::Fault), 4)
}

#[test]
fn no_read_is_made_after_the_greatest_input(rt: HostRuntime) -> Result<(), Fail> {
    let alloc = rt.alloc();
    let bytes = vec![in alloc; b'#'; 1_048_580]?;
    let mut source = MemorySource::new(bytes, 4096, Vec::new(alloc));
    // 256 reads give 1,048,576 bytes, and one more the last.
    match read_input(alloc, &mut source, 1_048_577) {
        Ok(found) => assert!(rt; found.len() == 1_048_577),
        Err(_) => panic!(rt; "the input is not read"),
    }
    assert!(rt; source.calls() == 257);
    Ok(())
}
