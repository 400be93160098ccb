//! Numbers as bytes.

ghost use Rattle.std.specs.Prelude.{◌≡◌, ◌++◌, replicate, slice_index, OnOk, IfOk};
ghost use Rattle.state_words.specs.Cells.{cells_from, cells_by, high_after, joined};

use std::alloc::{AllocError, Global};

/// The cell at a place, 0 past the last.
pub fn cell(cells: &[u64], at: usize) -> u64
    ensures { result ≡ slice_index cells.now at }
{
    cells.get(at).copied().unwrap_or(0)
}

/// A number with more digits, modulo 2^64.
fn joined(high: u64, base: u64, low: u8) -> u64
    ensures { result ≡ joined high base low }
{
    high.wrapping_mul(base).wrapping_add(low as u64)
}

fn push_zeros(count: u8, cells: &mut Vec<u64>) -> Result<(), AllocError>
    ensures { OnOk result (cells.new.items ≡ cells.old.items ++ replicate count 0) }
{
    for _ in 0..count {
        cells.push(0)?;
    }
    Ok(())
}

/// Adds the cells that a byte ends.
fn push_cells(high: u64, byte: u8, cells: &mut Vec<u64>) -> Result<(), AllocError>
    ensures { OnOk result (cells.new.items ≡ cells.old.items ++ cells_by high byte) }
{
    if byte < 128 {
        cells.push(joined(high, 128, byte))?;
        return Ok(());
    }
    if byte < 192 {
        return push_zeros(byte - 127, cells);
    }
    Ok(())
}

/// The digits so far of a number that goes on after a byte.
fn high_after(high: u64, byte: u8) -> u64
    ensures { result ≡ high_after high byte }
{
    if byte < 192 {
        return 0;
    }
    joined(high, 64, byte - 192)
}

/// The cells that the bytes of a word stand for.
///
/// # Errors
/// `AllocError` if memory runs out.
pub fn cells_of(alloc: Global, word: &[u8]) -> Result<Vec<u64>, AllocError>
    ensures { IfOk result (λ cells. cells.items ≡ cells_from 0 word.now) }
{
    let mut cells = Vec::new(alloc);
    let mut high = 0;
    for byte in word {
        push_cells(high, *byte, &mut cells)?;
        high = high_after(high, *byte);
    }
    Ok(cells)
}
