//! Which lines of standard input are rows, the first word of a line, and how answers are written.

ghost use Rattle.std.specs.Prelude.{◌≡◌, ◌++◌, map, IfOk, OnErr};
ghost use Rattle.row_spelling.specs.Rows.{is_row, lines_given, before_space, after_space, MayBeWritten};
ghost use Rattle.row_spelling.specs.Spelling.{named_shown};

use crate::error::RowError;
use crate::spelling::{NamedLines, take_lines};
use std::alloc::Global;
use std::io;

/// What stands before the first space of a line, and what stands after it: the whole line and nothing, if there is none.
pub fn cut(line: &str) -> (&str, &str)
    ensures first { result.0.now ≡ before_space line.now }
    ensures rest { result.1.now ≡ after_space line.now }
{
    match line.split_once(' ') {
        Some(parts) => parts,
        None => (line, ""),
    }
}

/// Takes a line, and answers whether it is a row. Lines with a name are kept, and a heading and a row are written as they stand.
///
/// # Errors
///
/// Memory ran out, or writing failed.
pub fn take_line<R: Print>(
    rt: &R,
    alloc: Global,
    named: &mut Vec<NamedLines>,
    line: &str,
) -> io::Result<bool>
    ensures row { IfOk result (λ is. is ≡ is_row line.now) }
    ensures given { IfOk result (λ _. map named_shown named.new.items ≡ map named_shown named.old.items ++ lines_given named.old.items line.now) }
    ensures kept { OnErr result (named.new.items ≡ named.old.items) }
{
    if line.is_empty() {
        return Ok(false);
    }
    if let Some(rest) = line.strip_prefix("lines ") {
        take_lines(rt, alloc, named, line, rest)?;
        return Ok(false);
    }
    rt.println(line)?;
    Ok(!line.starts_with('#'))
}

/// Writes the lines that answer a row, or that it isn't spelled as a row.
///
/// # Errors
///
/// Memory ran out, for the answer before or while it is written, or writing failed.
pub fn write_answer<R: Print>(rt: &R, answered: Result<(), RowError>, out: &str) -> io::Result<()>
    ensures { IfOk result (λ _. MayBeWritten answered) }
{
    match answered {
        Ok(()) => rt.print(out),
        Err(RowError::Wrong) => rt.println("wrong row"),
        Err(RowError::Memory(error)) => Err(error.into()),
    }
}
