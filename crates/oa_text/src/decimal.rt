//! Numbers in decimal, with no leading zeros.

ghost use Rattle.std.specs.Prelude.{◌≡◌, ◌≤◌, ◌<◌, ◌++◌, OnOk, OnErr, drop, decimal};
ghost use Rattle.oa_text.specs.Causes.{HasCause};
ghost use Rattle.oa_text.specs.Written.{Writes};

use crate::sink::{Sink, write_all};
use crate::source::Failed;
use std::alloc::{AllocError, Global};

// Puts the digits of a number at the end of the buffer, and says where they begin.
fn digits_into(buffer: &mut [u8; 20], n: u64) -> usize
    ensures within { result ≤ 20 }
    ensures digits { drop result buffer.new ≡ decimal n }
{
    let mut at = 20;
    let mut rest = n;
    while rest >= 10 {
        at -= 1;
        buffer[at] = 48 + (rest % 10) as u8;
        rest /= 10;
    }
    at -= 1;
    buffer[at] = 48 + rest as u8;
    at
}

/// Writes a number in decimal, with no memory taken.
///
/// # Errors
/// `Failed` at the first write that the sink fails. A prefix of its digits was written then.
pub fn write_decimal<K: Sink>(out: &mut K, n: u64) -> Result<(), Failed>
    ensures bytes { Writes (K.written out.old) (K.written out.new) (decimal n) result }
    ensures cause { HasCause (K.faults out.old) (K.faults out.new) result }
{
    let mut buffer = [0; 20];
    let at = digits_into(&mut buffer, n);
    write_all(out, &buffer[at..])
}

#[tactic(auto, using(std::proofs::lemmas::Fmt::decimal_digit))]
fn put_digit(out: &mut Vec<u8>, n: u8) -> Result<(), AllocError>
    requires { n < 10 }
    ensures ok { OnOk result (out.new.items ≡ out.old.items ++ decimal n) }
    ensures err { OnErr result (out.new.items ≡ out.old.items) }
{
    out.push(b'0' + n)?;
    Ok(())
}

/// Adds a number in decimal. One of one digit, as most are, takes no memory but that of the output.
///
/// # Errors
///
/// `AllocError` if memory runs out. Nothing is added then.
pub fn put_decimal(alloc: Global, out: &mut Vec<u8>, n: u64) -> Result<(), AllocError>
    ensures ok { OnOk result (out.new.items ≡ out.old.items ++ decimal n) }
    ensures err { OnErr result (out.new.items ≡ out.old.items) }
{
    if n < 10 {
        return put_digit(out, n as u8);
    }
    let digits = n.to_string(alloc)?;
    out.extend_from_slice(digits.as_bytes())
}
