//! What is wrong with a line, and the sentence on it.

ghost use Rattle.std.specs.Prelude.{◌≡◌, ◌+◌, ◌-◌, ◌<◌, ◌^◌, length, is_some, slice_index};
ghost use Rattle.oa_text.specs.Causes.{HasCause};
ghost use Rattle.oa_text.specs.Lines.{lines_of};
ghost use Rattle.oa_text.specs.Shown.{line_shown};
ghost use Rattle.oa_text.specs.Written.{Writes};
ghost use Rattle.messages.specs.Faults.{odd_byte, byte_words, byte_mend, byte_sentence, field_kind, root_named, named_word, unknown_sentence, repeated_place, repeated_sentence};
ghost use Rattle.message_lines.specs.Places.{declares_kind, line_that};

use message_lines::lines::kind_line;
use message_lines::words::word_at;
use oa_text::{Failed, Line, Piece, Sink, TextFault, tokens, write_pieces};

/// The first byte of a line that may not stand in one, and its column, from 1.
#[derive(Clone, Copy)]
pub(crate) struct OddByte {
    pub(crate) column: u32,
    pub(crate) byte: u8,
}

/// What a line names that isn't declared: which sort of thing, and its word's place in the line; of no sort if that isn't known.
#[derive(Clone, Copy)]
pub(crate) enum NamedWord {
    Field(usize),
    Root(usize),
    Kind(usize),
    Node(usize),
    Operation(usize),
    Unknown,
}

/// The byte of a line at a column, from 1.
fn byte_at(line: Line, column: u32) -> u8
    ensures { result ≡ slice_index (line_shown line.entry).bytes (column - 1) }
{
    match line.bytes().get(column.saturating_sub(1) as usize) {
        None => 0,
        Some(byte) => *byte,
    }
}

/// The first byte of a line that may not stand in one.
pub(crate) fn odd_byte(line: Line) -> Option<OddByte>
    ensures { result ≡ odd_byte (line_shown line.entry) }
{
    match tokens(line) {
        Ok(_) => None,
        Err(TextFault::Byte { column, .. }) => Some(OddByte {
            column,
            byte: byte_at(line, column),
        }),
        Err(TextFault::Number { .. }) => None,
        Err(TextFault::LineLong { .. }) => None,
    }
}

/// What a byte is called, if it is one that editors put in unseen.
#[tactic(auto, unfolding(crate::specs::Faults::byte_words))]
fn byte_words(byte: u8) -> &'static [u8]
    ensures { result.now ≡ byte_words byte }
{
    if byte == 13 {
        b", a carriage return,"
    } else {
        b""
    }
}

/// How to mend a line with this byte.
#[tactic(auto, unfolding(crate::specs::Faults::byte_mend))]
fn byte_mend(byte: u8) -> &'static [u8]
    ensures { result.now ≡ byte_mend byte }
{
    if byte == 13 {
        b"End each line by a newline alone"
    } else {
        b"Write plain characters, in comments too"
    }
}

/// Writes which byte of a line may not stand there.
pub(crate) fn write_byte<K: Sink>(errors: &mut K, line: Line, odd: OddByte) -> Result<(), Failed>
    ensures bytes { Writes (K.written errors.old) (K.written errors.new) (byte_sentence (line_shown line.entry) odd) result }
    ensures cause { HasCause (K.faults errors.old) (K.faults errors.new) result }
{
    write_pieces(
        errors,
        &[
            Piece::Bytes(b"oa: line "),
            Piece::Number(line.number() as u64),
            Piece::Bytes(b" is at fault: its byte "),
            Piece::Number(odd.byte as u64),
            Piece::Bytes(byte_words(odd.byte)),
            Piece::Bytes(b" at column "),
            Piece::Number(odd.column as u64),
            Piece::Bytes(b" is neither a tab nor one from space (32) to ~ (126). "),
            Piece::Bytes(byte_mend(odd.byte)),
            Piece::Bytes(b"; see 'Faults' in docs/language.md.\n"),
        ],
    )
}

/// Whether a kind so named is declared above a line.
fn declared(bytes: &[u8], before: u32, name: &[u8]) -> bool
    requires { length (lines_of bytes.now) + 1 < 2 ^ 32 }
    ensures { result ≡ is_some (line_that (declares_kind before name.now) bytes.now 0) }
{
    kind_line(bytes, before, name).is_some()
}

/// The kind that a field line names and that isn't declared.
fn field_kind(bytes: &[u8], line: Line) -> NamedWord
    requires { length (lines_of bytes.now) + 1 < 2 ^ 32 }
    ensures { result ≡ field_kind bytes.now (line_shown line.entry) }
{
    if declared(bytes, line.number(), word_at(line, 1)) {
        NamedWord::Kind(4)
    } else {
        NamedWord::Kind(1)
    }
}

/// What a line with the first word `root` names: as an instruction a root, in the first version a node, and in the second a kind,
/// if it isn't declared, or else a node.
fn root_named(bytes: &[u8], line: Line) -> NamedWord
    requires { length (lines_of bytes.now) + 1 < 2 ^ 32 }
    ensures { result ≡ root_named bytes.now (line_shown line.entry) }
{
    if word_at(line, 3).is_empty() {
        NamedWord::Root(2)
    } else if word_at(line, 4).is_empty() {
        NamedWord::Node(3)
    } else if declared(bytes, line.number(), word_at(line, 3)) {
        NamedWord::Node(4)
    } else {
        NamedWord::Kind(3)
    }
}

/// What a line names that isn't declared.
pub(crate) fn named_word(bytes: &[u8], line: Line) -> NamedWord
    requires { length (lines_of bytes.now) + 1 < 2 ^ 32 }
    ensures { result ≡ named_word bytes.now (line_shown line.entry) }
{
    let word = word_at(line, 0);
    if word == b"load".as_slice() {
        NamedWord::Field(3)
    } else if word == b"put".as_slice() || word == b"cas".as_slice() || word == b"with".as_slice() {
        NamedWord::Field(2)
    } else if word == b"pick".as_slice() {
        NamedWord::Root(2)
    } else if word == b"casroot".as_slice() || word == b"withroot".as_slice() {
        NamedWord::Root(1)
    } else if word == b"new".as_slice() {
        NamedWord::Kind(2)
    } else if word == b"nodes".as_slice() || word == b"slots".as_slice() {
        NamedWord::Kind(1)
    } else if word == b"begin".as_slice() {
        NamedWord::Operation(2)
    } else if word == b"field".as_slice() {
        field_kind(bytes, line)
    } else if word == b"root".as_slice() {
        root_named(bytes, line)
    } else {
        NamedWord::Unknown
    }
}

/// Writes which word of a line names nothing that is declared.
pub(crate) fn write_unknown<'a, K: Sink>(
    errors: &mut K,
    line: Line<'a>,
    sort: &'a [u8],
    word: &'a [u8],
) -> Result<(), Failed>
    ensures bytes { Writes (K.written errors.old) (K.written errors.new) (unknown_sentence (line_shown line.entry) sort.now word.now) result }
    ensures cause { HasCause (K.faults errors.old) (K.faults errors.new) result }
{
    write_pieces(
        errors,
        &[
            Piece::Bytes(b"oa: line "),
            Piece::Number(line.number() as u64),
            Piece::Bytes(b" is at fault: it names the "),
            Piece::Bytes(sort),
            Piece::Bytes(b" '"),
            Piece::Bytes(word),
            Piece::Bytes(
                b"', which is not declared. Declare it above, or spell it as it is declared; see 'Faults' in docs/language.md.\n",
            ),
        ],
    )
}

/// The place of the name that a line declares: after the kind that a field line of the second version names, else right after the
/// first word.
#[tactic(auto, unfolding(crate::specs::Faults::repeated_place))]
fn repeated_place(line: Line) -> usize
    ensures { result ≡ repeated_place (line_shown line.entry) }
{
    if word_at(line, 0) == b"field".as_slice() && !word_at(line, 3).is_empty() {
        2
    } else {
        1
    }
}

/// Writes which name a line declares again.
pub(crate) fn write_repeated<K: Sink>(errors: &mut K, line: Line) -> Result<(), Failed>
    ensures bytes { Writes (K.written errors.old) (K.written errors.new) (repeated_sentence (line_shown line.entry)) result }
    ensures cause { HasCause (K.faults errors.old) (K.faults errors.new) result }
{
    write_pieces(
        errors,
        &[
            Piece::Bytes(b"oa: line "),
            Piece::Number(line.number() as u64),
            Piece::Bytes(b" is at fault: it declares '"),
            Piece::Bytes(word_at(line, repeated_place(line))),
            Piece::Bytes(
                b"', which is declared already. Give it a name of its own; see 'Faults' in docs/language.md.\n",
            ),
        ],
    )
}
