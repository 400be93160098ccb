//! The bytes that a row spells.
//!
//! `|` is a newline, `\xHH` the byte with these two digits, `{NAME}` the lines with this name, and `(N:LINES)` these lines N
//! times, in which `%` is the copy's number from 0 and `&` are two letters that no other of 676 copies has. Outside of these `%` is `0` and
//! `&` is `aa`, and within them `{` and `}` stand for themselves.

ghost use Rattle.std.specs.Prelude.{◌≡◌, ◌<◌, ◌++◌, [], ◌∷◌, map, IfOk, OnOk, OnErr};
ghost use Rattle.std.specs.String.{string_bytes};
ghost use Rattle.std.specs.Option.{option_to_list};
ghost use Rattle.row_spelling.specs.Answered.{Gives};
ghost use Rattle.row_spelling.specs.Spelling.{hex_digit, letters, byte_spelled, plain_spelled, onto, followed, all_spelled, parts_at, cut_at, escape_spelled, text_spelled, lines_named, name_spelled, lines_spelled, count_in, copies_spelled, counted_spelled, count_spelled, spelled, named_shown, lines_in};
ghost use Rattle.row_spelling.specs.OneLine.{shown, one_line};

use crate::error::RowError;
use std::alloc::{AllocError, Global};
use std::io;

/// Lines with a name.
#[derive(Drop)]
pub struct NamedLines {
    pub name: String,
    pub bytes: Vec<u8>,
}

/// The number that a hexadecimal digit is.
fn hex(digit: u8) -> Result<u8, RowError>
    ensures number { Gives (λ n. n) result (hex_digit digit) }
    ensures small { IfOk result (λ n. n < 16) }
{
    match digit {
        b'0'..=b'9' => Ok(digit - b'0'),
        b'a'..=b'f' => Ok(digit - b'a' + 10),
        _ => Err(RowError::Wrong),
    }
}

fn add_byte(out: &mut Vec<u8>, byte: u8) -> Result<(), AllocError>
    ensures { OnOk result (out.new.items ≡ out.old.items ++ byte ∷ []) }
{
    out.push(byte)?;
    Ok(())
}

/// Adds the letters of a copy.
fn add_letters(out: &mut Vec<u8>, copy: u32) -> Result<(), AllocError>
    ensures { OnOk result (out.new.items ≡ out.old.items ++ letters copy) }
{
    out.push(b'a' + (copy / 26 % 26) as u8)?;
    out.push(b'a' + (copy % 26) as u8)?;
    Ok(())
}

/// Adds what a byte spells in a copy.
fn add_spelled(alloc: Global, out: &mut Vec<u8>, byte: u8, copy: u32) -> Result<(), AllocError>
    ensures { OnOk result (out.new.items ≡ out.old.items ++ byte_spelled copy byte) }
{
    match byte {
        b'|' => add_byte(out, b'\n'),
        b'%' => out.extend_from_slice(copy.to_string(alloc)?.as_bytes()),
        b'&' => add_letters(out, copy),
        b => add_byte(out, b),
    }
}

/// Adds bytes in which no escape stands.
#[tactic(auto, using(crate::proofs::Adding::plain_more))]
fn add_plain(alloc: Global, out: &mut Vec<u8>, bytes: &[u8], copy: u32) -> Result<(), AllocError>
    ensures { OnOk result (out.new.items ≡ out.old.items ++ plain_spelled copy bytes.now) }
{
    for b in bytes {
        add_spelled(alloc, out, *b, copy)?;
    }
    Ok(())
}

/// Adds what stands after the `\` of an escape.
fn add_escaped(alloc: Global, out: &mut Vec<u8>, bytes: &[u8], copy: u32) -> Result<(), RowError>
    ensures { Gives (λ _. out.new.items) result (onto out.old.items (escape_spelled copy bytes.now)) }
{
    match bytes {
        [b'x', high, low, rest @ ..] => {
            add_byte(out, hex(*high)? * 16 + hex(*low)?)?;
            Ok(add_plain(alloc, out, rest, copy)?)
        }
        _ => Err(RowError::Wrong),
    }
}

/// The parts of a text between marks.
fn parts<'a>(alloc: Global, text: &'a str, mark: char) -> Result<Vec<&'a str>, AllocError>
    requires { mark < 128 }
    ensures { IfOk result (λ parts. map (λ part. part.now) parts.items ≡ parts_at mark text.now) }
{
    text.split(mark).collect(alloc)
}

/// What stands before the first mark in a text, and what stands after it.
fn cut_at<'a>(text: &'a str, mark: char) -> Result<(&'a str, &'a str), RowError>
    requires { mark < 128 }
    ensures { Gives (λ cut. (cut.0.now, cut.1.now)) result (cut_at mark text.now) }
{
    match text.split_once(mark) {
        Some(parts) => Ok(parts),
        None => Err(RowError::Wrong),
    }
}

/// Adds bytes after each of which the next escape stands.
#[tactic(auto, using(crate::proofs::Adding::all_more, crate::proofs::Adding::all_wrong))]
fn add_escapes(alloc: Global, out: &mut Vec<u8>, parts: &[&str], copy: u32) -> Result<(), RowError>
    ensures { Gives (λ _. out.new.items) result (onto out.old.items (all_spelled (λ part. escape_spelled copy part.now) parts.now)) }
{
    for part in parts {
        add_escaped(alloc, out, part.as_bytes(), copy)?;
    }
    Ok(())
}

/// Adds bytes that stand before the first escape, and those after each.
#[tactic(auto, using(crate::proofs::Adding::onto_then))]
fn add_cut_bytes(
    alloc: Global,
    out: &mut Vec<u8>,
    first: &str,
    rest: &[&str],
    copy: u32,
) -> Result<(), RowError>
    ensures { Gives (λ _. out.new.items) result (onto out.old.items (onto (plain_spelled copy first.now) (all_spelled (λ part. escape_spelled copy part.now) rest.now))) }
{
    add_plain(alloc, out, first.as_bytes(), copy)?;
    add_escapes(alloc, out, rest, copy)?;
    Ok(())
}

/// Adds bytes in which no name and no count stands.
fn add_bytes(alloc: Global, out: &mut Vec<u8>, spelling: &str, copy: u32) -> Result<(), RowError>
    ensures { Gives (λ _. out.new.items) result (onto out.old.items (text_spelled copy spelling.now)) }
{
    let parts = parts(alloc, spelling, '\\')?;
    match parts.as_slice().split_first() {
        Some((first, rest)) => add_cut_bytes(alloc, out, first, rest, copy),
        None => Ok(()),
    }
}

/// Adds the lines with a name.
#[tactic(auto, using(crate::proofs::Adding::named_here, crate::proofs::Adding::named_later))]
fn add_named(out: &mut Vec<u8>, named: &[NamedLines], name: &str) -> Result<(), RowError>
    ensures { Gives (λ _. out.new.items) result (onto out.old.items (lines_named named.now name.now)) }
{
    for lines in named {
        if lines.name.as_str() == name {
            out.extend_from_slice(&lines.bytes)?;
            return Ok(());
        }
    }
    Err(RowError::Wrong)
}

/// Adds the lines whose name stands first, and then the bytes after it.
fn add_after_name(
    alloc: Global,
    out: &mut Vec<u8>,
    named: &[NamedLines],
    part: &str,
) -> Result<(), RowError>
    ensures { Gives (λ _. out.new.items) result (onto out.old.items (name_spelled named.now part.now)) }
{
    let (name, rest) = cut_at(part, '}')?;
    add_named(out, named, name)?;
    add_bytes(alloc, out, rest, 0)
}

/// Adds bytes before each of which a name stands.
#[tactic(auto, using(crate::proofs::Adding::all_more, crate::proofs::Adding::all_wrong))]
fn add_after_names(
    alloc: Global,
    out: &mut Vec<u8>,
    named: &[NamedLines],
    parts: &[&str],
) -> Result<(), RowError>
    ensures { Gives (λ _. out.new.items) result (onto out.old.items (all_spelled (λ part. name_spelled named.now part.now) parts.now)) }
{
    for part in parts {
        add_after_name(alloc, out, named, part)?;
    }
    Ok(())
}

/// Adds bytes that stand before the first name, and those after each.
#[tactic(auto, using(crate::proofs::Adding::followed_then, crate::proofs::Adding::onto_wrong))]
fn add_cut_lines(
    alloc: Global,
    out: &mut Vec<u8>,
    named: &[NamedLines],
    first: &str,
    rest: &[&str],
) -> Result<(), RowError>
    ensures { Gives (λ _. out.new.items) result (onto out.old.items (followed (text_spelled 0 first.now) (all_spelled (λ part. name_spelled named.now part.now) rest.now))) }
{
    add_bytes(alloc, out, first, 0)?;
    add_after_names(alloc, out, named, rest)?;
    Ok(())
}

/// Adds bytes in which no count stands.
fn add_lines(
    alloc: Global,
    out: &mut Vec<u8>,
    named: &[NamedLines],
    spelling: &str,
) -> Result<(), RowError>
    ensures { Gives (λ _. out.new.items) result (onto out.old.items (lines_spelled named.now spelling.now)) }
{
    let parts = parts(alloc, spelling, '{')?;
    match parts.as_slice().split_first() {
        Some((first, rest)) => add_cut_lines(alloc, out, named, first, rest),
        None => Ok(()),
    }
}

/// The count that digits are.
fn count_in(digits: &str) -> Result<u32, RowError>
    ensures { Gives (λ n. n) result (count_in digits.now) }
{
    match digits.parse::<u32>() {
        Ok(count) => Ok(count),
        Err(_) => Err(RowError::Wrong),
    }
}

/// Adds so many copies of lines.
#[tactic(auto, using(crate::proofs::Adding::copies_more, crate::proofs::Adding::copies_wrong))]
fn add_copies(alloc: Global, out: &mut Vec<u8>, count: u32, lines: &str) -> Result<(), RowError>
    ensures { Gives (λ _. out.new.items) result (onto out.old.items (copies_spelled count lines.now)) }
{
    for copy in 0..count {
        add_bytes(alloc, out, lines, copy)?;
    }
    Ok(())
}

/// Adds lines as often as their count says.
fn add_counted(alloc: Global, out: &mut Vec<u8>, counted: &str) -> Result<(), RowError>
    ensures { Gives (λ _. out.new.items) result (onto out.old.items (counted_spelled counted.now)) }
{
    let (count, lines) = cut_at(counted, ':')?;
    let count = count_in(count)?;
    add_copies(alloc, out, count, lines)
}

/// Adds the lines whose count stands first, and then the bytes after them.
fn add_after_count(
    alloc: Global,
    out: &mut Vec<u8>,
    named: &[NamedLines],
    part: &str,
) -> Result<(), RowError>
    ensures { Gives (λ _. out.new.items) result (onto out.old.items (count_spelled named.now part.now)) }
{
    let (counted, rest) = cut_at(part, ')')?;
    add_counted(alloc, out, counted)?;
    add_lines(alloc, out, named, rest)
}

/// Adds bytes before each of which counted lines stand.
#[tactic(auto, using(crate::proofs::Adding::all_more, crate::proofs::Adding::all_wrong))]
fn add_after_counts(
    alloc: Global,
    out: &mut Vec<u8>,
    named: &[NamedLines],
    parts: &[&str],
) -> Result<(), RowError>
    ensures { Gives (λ _. out.new.items) result (onto out.old.items (all_spelled (λ part. count_spelled named.now part.now) parts.now)) }
{
    for part in parts {
        add_after_count(alloc, out, named, part)?;
    }
    Ok(())
}

/// Adds bytes that stand before the first count, and those after each.
#[tactic(auto, using(crate::proofs::Adding::followed_then, crate::proofs::Adding::onto_wrong))]
fn add_cut_row(
    alloc: Global,
    out: &mut Vec<u8>,
    named: &[NamedLines],
    first: &str,
    rest: &[&str],
) -> Result<(), RowError>
    ensures { Gives (λ _. out.new.items) result (onto out.old.items (followed (lines_spelled named.now first.now) (all_spelled (λ part. count_spelled named.now part.now) rest.now))) }
{
    add_lines(alloc, out, named, first)?;
    add_after_counts(alloc, out, named, rest)?;
    Ok(())
}

/// Adds the bytes that a row spells.
fn add_all(
    alloc: Global,
    out: &mut Vec<u8>,
    named: &[NamedLines],
    spelling: &str,
) -> Result<(), RowError>
    ensures { Gives (λ _. out.new.items) result (onto out.old.items (spelled named.now spelling.now)) }
{
    let parts = parts(alloc, spelling, '(')?;
    match parts.as_slice().split_first() {
        Some((first, rest)) => add_cut_row(alloc, out, named, first, rest),
        None => Ok(()),
    }
}

/// The bytes that a row spells.
///
/// # Errors
///
/// `RowError::Wrong` if the spelling has a `(`, or outside counted lines a `{`, that nothing closes, an escape without its digits, a name that no lines have, or
/// a count that is no number below 2^32; and `RowError::Memory` if memory runs out.
#[tactic(auto, using(crate::proofs::Adding::onto_nothing))]
pub fn spelled(alloc: Global, named: &[NamedLines], spelling: &str) -> Result<Vec<u8>, RowError>
    ensures { Gives (λ bytes. bytes.items) result (spelled named.now spelling.now) }
{
    let mut out = Vec::new(alloc);
    add_all(alloc, &mut out, named, spelling)?;
    Ok(out)
}

/// The lines that a name and their spelling, which stand in one line, name.
fn named_lines(alloc: Global, named: &[NamedLines], line: &str) -> Result<NamedLines, RowError>
    ensures { Gives named_shown result (lines_in named.now line.now) }
{
    let (name, spelling) = cut_at(line, ' ')?;
    let bytes = spelled(alloc, named, spelling)?;
    Ok(NamedLines {
        name: String::from_str(alloc, name)?,
        bytes,
    })
}

/// Takes the lines that rows begin with, whose name and spelling stand after `lines ` in a line of standard input. If they aren't
/// spelled so, standard output says it.
///
/// # Errors
///
/// An error of standard output, or that memory ran out.
#[tactic(auto, using(crate::proofs::Taking::taken, crate::proofs::Taking::not_taken))]
pub fn take_lines<R: Print>(
    rt: &R,
    alloc: Global,
    named: &mut Vec<NamedLines>,
    line: &str,
    rest: &str,
) -> io::Result<()>
    ensures ok { OnOk result (map named_shown named.new.items ≡ map named_shown named.old.items ++ option_to_list (lines_in named.old.items rest.now)) }
    ensures err { OnErr result (named.new.items ≡ named.old.items) }
{
    match named_lines(alloc, named, rest) {
        Ok(lines) => Ok(named.push(lines)?),
        Err(RowError::Wrong) => println!(rt; "wrong row: {line}"),
        Err(RowError::Memory(error)) => Err(error.into()),
    }
}

/// The character that stands for a byte in a line.
fn shown(byte: u8) -> char
    ensures { result ≡ shown byte }
{
    if byte == b'\n' { '|' } else { byte as char }
}

/// Bytes in one line, with `|` for a newline.
///
/// # Errors
///
/// `AllocError` if memory runs out.
#[tactic(auto, using(crate::proofs::OneLine::line_more))]
pub fn one_line(alloc: Global, bytes: &[u8]) -> Result<String, AllocError>
    ensures { IfOk result (λ line. string_bytes line ≡ one_line bytes.now) }
{
    let mut line = String::new(alloc);
    for b in bytes {
        line.push(shown(*b))?;
    }
    Ok(line)
}
