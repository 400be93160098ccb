//! A hash set of four callers.

use crate::asked::says;
use oa_cli::Status;
use oa_text::OpenGate;
use std::alloc::{AllocError, Global};
use std::test::Fail;

/// What a caller calls, and how many of its keys that is for, from `100 * caller` on.
const STEPS: [(&str, u32); 3] = [("insert", 14), ("contains", 13), ("remove", 13)];

fn put(text: &mut Vec<u8>, words: &str) -> Result<(), AllocError> {
    text.extend_from_slice(words.as_bytes())
}

fn put_number(alloc: Global, text: &mut Vec<u8>, number: u32) -> Result<(), AllocError> {
    let digits = number.to_string(alloc)?;
    put(text, digits.as_str())
}

/// The calls of one name, for so many keys.
fn put_calls(
    alloc: Global,
    text: &mut Vec<u8>,
    name: &str,
    first: u32,
    count: u32,
) -> Result<(), AllocError> {
    for i in 0..count {
        put(text, name)?;
        put(text, " ")?;
        put_number(alloc, text, first.saturating_add(i))?;
        put(text, "\n")?;
    }
    Ok(())
}

fn put_script(alloc: Global, text: &mut Vec<u8>, caller: u32) -> Result<(), AllocError> {
    put(text, "script ")?;
    put_number(alloc, text, caller)?;
    put(text, "\n")?;
    for (name, count) in STEPS {
        put_calls(alloc, text, name, caller.saturating_mul(100), count)?;
    }
    Ok(())
}

fn document(alloc: Global) -> Result<Vec<u8>, AllocError> {
    let mut text = Vec::from_slice(alloc, b"oa 1\nuse set 8\n")?;
    for caller in 0..4 {
        put_script(alloc, &mut text, caller)?;
    }
    Ok(text)
}

/// The answers of one name, each of which is 1.
fn put_answers(
    alloc: Global,
    text: &mut Vec<u8>,
    caller: u32,
    before: u32,
    name: &str,
    count: u32,
) -> Result<(), AllocError> {
    for i in 0..count {
        put_number(alloc, text, caller)?;
        put(text, " ")?;
        put_number(alloc, text, before.saturating_add(i))?;
        put(text, " ")?;
        put(text, name)?;
        put(text, " ")?;
        put_number(alloc, text, caller.saturating_mul(100).saturating_add(i))?;
        put(text, ": 1\n")?;
    }
    Ok(())
}

fn put_report(alloc: Global, text: &mut Vec<u8>, caller: u32) -> Result<(), AllocError> {
    let mut before = 0u32;
    for (name, count) in STEPS {
        put_answers(alloc, text, caller, before, name, count)?;
        before = before.saturating_add(count);
    }
    Ok(())
}

fn report(alloc: Global) -> Result<Vec<u8>, AllocError> {
    let mut text = Vec::new(alloc);
    for caller in 0..4 {
        put_report(alloc, &mut text, caller)?;
    }
    put(
        &mut text,
        "replies 160 short 0 phase 1 claims 56 restarts 0\n",
    )?;
    Ok(text)
}

/// Each caller has keys of its own, so every answer is 1, however they run.
#[test]
fn hash_set_of_four_callers(rt: HostRuntime) -> Result<(), Fail> {
    let alloc = rt.alloc();
    let (document, report) = (document(alloc)?, report(alloc)?);
    says(
        &rt,
        alloc,
        &["run"],
        &document,
        &OpenGate,
        Status::Done,
        &report,
    )
}
