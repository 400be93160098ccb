//! Texts that are written piece by piece.

ghost use Rattle.std.specs.Prelude.{ℕ, List};
ghost use Rattle.std.specs.List.{flat_map};
ghost use Rattle.oa_text.specs.Causes.{HasCause};
ghost use Rattle.oa_text.specs.Written.{Writes};
ghost use Rattle.oa_text.specs.Pieces.{piece_bytes, argument_bytes, part_bytes};

use crate::decimal::write_decimal;
use crate::sink::{Sink, write_all};
use crate::source::Failed;

/// A piece of a text: a number, which is written in decimal, or bytes as they are.
#[derive(Clone, Copy)]
pub enum Piece<'a> {
    Number(u64),
    Bytes(&'a [u8]),
}

/// A part of a text: one piece, or numbers with a space before each.
#[derive(Clone, Copy)]
pub enum Part<'a> {
    One(Piece<'a>),
    Arguments(&'a [u64]),
}

/// What is written to a sink as bytes of its own.
pub trait Spelled {
    /// The bytes.
    ghost spelling: { Self → List ℕ };

    /// Writes the bytes. At `Failed` a prefix of them was written.
    fn write_to<K: Sink>(&self, out: &mut K) -> Result<(), Failed>
        ensures bytes { Writes (K.written out.old) (K.written out.new) (spelling self.now) result }
        ensures cause { HasCause (K.faults out.old) (K.faults out.new) result };
}

/// Writes things one after another.
///
/// # Errors
/// `Failed` at the first write that the sink fails. A prefix of all their bytes was written then.
pub fn write_each<K: Sink, T: Spelled>(out: &mut K, things: &[T]) -> Result<(), Failed>
    ensures bytes { Writes (K.written out.old) (K.written out.new) (flat_map T.spelling things.now) result }
    ensures cause { HasCause (K.faults out.old) (K.faults out.new) result }
{
    for thing in things {
        thing.write_to(out)?;
    }
    Ok(())
}

impl<'a> Spelled for Piece<'a> {
    ghost spelling = { piece_bytes };

    fn write_to<K: Sink>(&self, out: &mut K) -> Result<(), Failed> {
        match self {
            Piece::Number(n) => write_decimal(out, *n),
            Piece::Bytes(bytes) => write_all(out, bytes),
        }
    }
}

/// Writes a piece.
///
/// # Errors
/// `Failed` at the first write that the sink fails. A prefix of its bytes was written then.
pub fn write_piece<K: Sink>(out: &mut K, piece: &Piece) -> Result<(), Failed>
    ensures bytes { Writes (K.written out.old) (K.written out.new) (piece_bytes piece.now) result }
    ensures cause { HasCause (K.faults out.old) (K.faults out.new) result }
{
    piece.write_to(out)
}

/// Writes pieces one after another.
///
/// # Errors
/// `Failed` at the first write that the sink fails. A prefix of all their bytes was written then.
pub fn write_pieces<K: Sink>(out: &mut K, pieces: &[Piece]) -> Result<(), Failed>
    ensures bytes { Writes (K.written out.old) (K.written out.new) (flat_map piece_bytes pieces.now) result }
    ensures cause { HasCause (K.faults out.old) (K.faults out.new) result }
{
    write_each(out, pieces)
}

// Writes a number in decimal after a space.
fn write_argument<K: Sink>(out: &mut K, n: u64) -> Result<(), Failed>
    ensures bytes { Writes (K.written out.old) (K.written out.new) (argument_bytes n) result }
    ensures cause { HasCause (K.faults out.old) (K.faults out.new) result }
{
    write_pieces(out, &[Piece::Bytes(b" "), Piece::Number(n)])
}

// Writes numbers, each after a space.
fn write_arguments<K: Sink>(out: &mut K, arguments: &[u64]) -> Result<(), Failed>
    ensures bytes { Writes (K.written out.old) (K.written out.new) (flat_map argument_bytes arguments.now) result }
    ensures cause { HasCause (K.faults out.old) (K.faults out.new) result }
{
    for n in arguments {
        write_argument(out, *n)?;
    }
    Ok(())
}

impl<'a> Spelled for Part<'a> {
    ghost spelling = { part_bytes };

    fn write_to<K: Sink>(&self, out: &mut K) -> Result<(), Failed> {
        match self {
            Part::One(piece) => write_piece(out, piece),
            Part::Arguments(arguments) => write_arguments(out, arguments),
        }
    }
}

/// Writes parts one after another.
///
/// # Errors
/// `Failed` at the first write that the sink fails. A prefix of all their bytes was written then.
pub fn write_parts<K: Sink>(out: &mut K, parts: &[Part]) -> Result<(), Failed>
    ensures bytes { Writes (K.written out.old) (K.written out.new) (flat_map part_bytes parts.now) result }
    ensures cause { HasCause (K.faults out.old) (K.faults out.new) result }
{
    write_each(out, parts)
}
