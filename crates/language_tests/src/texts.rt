//! Proper texts and copies, which are spelled as the shipped texts are. How these are spelled stands in rows of `reader_rows`.

ghost use Rattle.std.specs.Prelude.{◌≤◌};

use norm_lang::spelling::show;
use norm_lang::text::Text;
use norm_lang::{shipped_queue, shipped_set};
use queue_source::queue_text;
use set_source::set_text;
use std::alloc::{AllocError, Global};

fn is_spelled(alloc: Global, text: &Text, spelling: &[u8]) -> Result<bool, AllocError> {
    Ok(show(alloc, text)?.items() == spelling)
}

fn is_copy_spelled(alloc: Global, text: &Text, spelling: &[u8]) -> Result<bool, AllocError> {
    let copy = text.copy(alloc)?;
    is_spelled(alloc, &copy, spelling)
}

/// Whether a text and its copy are spelled as a shipped text is.
fn are_spelled_alike(alloc: Global, text: &Text, shipped: &Text) -> Result<bool, AllocError> {
    let spelling = show(alloc, shipped)?;
    if is_spelled(alloc, text, spelling.items())? {
        is_copy_spelled(alloc, text, spelling.items())
    } else {
        Ok(false)
    }
}

fn is_queue(alloc: Global, text: &Text) -> Result<bool, AllocError> {
    let shipped = shipped_queue(alloc)?;
    are_spelled_alike(alloc, text, &shipped)
}

#[test]
fn the_queue_is_the_shipped_one(rt: HostRuntime) -> Result<(), AllocError> {
    let text = queue_text(rt.alloc())?;
    let alike = is_queue(rt.alloc(), &text)?;
    assert!(rt; alike);
    Ok(())
}

fn is_set(alloc: Global, text: &Text, buckets: u32) -> Result<bool, AllocError>
    requires some { 1 ≤ buckets }
    requires most { buckets ≤ 64 }
{
    let shipped = shipped_set(alloc, buckets)?;
    are_spelled_alike(alloc, text, &shipped)
}

fn is_set_text(alloc: Global, buckets: u32) -> Result<bool, AllocError>
    requires some { 1 ≤ buckets }
    requires most { buckets ≤ 64 }
{
    let text = set_text(alloc, buckets)?;
    is_set(alloc, &text, buckets)
}

#[test]
fn sets_are_the_shipped_ones(rt: HostRuntime) -> Result<(), AllocError> {
    let alloc = rt.alloc();
    assert!(rt; is_set_text(alloc, 1)?);
    assert!(rt; is_set_text(alloc, 2)?);
    assert!(rt; is_set_text(alloc, 64)?);
    Ok(())
}
