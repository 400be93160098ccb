//! Text with a name and numbers in their places.

ghost use Rattle.std.specs.Prelude.{◌≡◌, ◌++◌, OnOk};
ghost use Rattle.c_printer.specs.Filling.{filled_byte, filled};

use oa_text::put_decimal;
use std::alloc::{AllocError, Global};

fn put_byte(
    alloc: Global,
    out: &mut Vec<u8>,
    name: &[u8],
    first: u64,
    second: u64,
    byte: u8,
) -> Result<(), AllocError>
    ensures { OnOk result (out.new.items ≡ out.old.items ++ filled_byte name.now first second byte) }
{
    if byte == b'@' {
        out.extend_from_slice(name)
    } else if byte == b'$' {
        put_decimal(alloc, out, first)
    } else if byte == b'~' {
        put_decimal(alloc, out, second)
    } else {
        out.extend_from_slice(&[byte])
    }
}

/// Adds a text with a name for each `@`, a number for each `$`, and another for each `~`.
///
/// # Errors
/// Memory ran out.
pub fn put_filled(
    alloc: Global,
    out: &mut Vec<u8>,
    name: &[u8],
    first: u64,
    second: u64,
    text: &[u8],
) -> Result<(), AllocError>
    ensures { OnOk result (out.new.items ≡ out.old.items ++ filled name.now first second text.now) }
{
    for byte in text {
        put_byte(alloc, out, name, first, second, *byte)?;
    }
    Ok(())
}
