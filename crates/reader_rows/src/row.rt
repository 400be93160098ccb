//! A row: the reader or the rule that it names, the line or the instruction that is meant, and the spelling of all lines.

use row_spelling::cut;

/// What is asked of an instruction of the first operation.
#[derive(Clone, Copy)]
pub(crate) enum Judge {
    /// Which rules over paths it breaks.
    Paths,
    /// Whether a register is of the wrong kind.
    Kind,
    /// Whether it computes on a reference.
    Computes,
    /// Whether it ends the method as it mustn't.
    End,
    /// Whether it retires a register that it mustn't.
    Retire,
    /// Whether it jumps or picks out of range.
    Range,
    /// The flaws of an instruction of a target whose wrap-up uses nothing of its generator.
    Flaws,
    /// The flaws of an instruction of a target whose wrap-up uses `n1` and keeps `r3`.
    CarriedFlaws,
}

/// What a row asks for.
#[derive(Clone, Copy)]
pub(crate) enum Reader {
    /// Whether the lines are a text.
    Text,
    /// The canonical spelling of the text that the lines are.
    TextShown,
    /// Where the text of a version ends that begins at a line.
    Front,
    /// Where the declarations end that begin at a line.
    Head,
    /// Whether the lines begin with an instruction on the shipped queue, and how many lines are left after it.
    Instruction,
    /// Whether the lines are a document.
    Document,
    /// What the document says besides its text.
    DocumentShown,
    /// The canonical spelling of the document's text.
    DocumentText,
    /// Whether the lines are a target.
    Target,
    /// The canonical spelling of the target that the lines are.
    TargetShown,
    /// Whether the target after `>` is barred for the text before it.
    Verified,
    /// What a rule says of an instruction.
    Judged(Judge),
}

/// A row.
#[derive(Clone, Copy)]
pub(crate) struct Row<'a> {
    pub(crate) reader: Reader,
    /// The line that is read first, from 1, or the place of the instruction that is judged, from 0.
    pub(crate) first: u32,
    /// The version of the lines of a text that begins at a line.
    pub(crate) version: u8,
    /// Whether the instruction is one of the wrap-up.
    pub(crate) wrapup: bool,
    pub(crate) spelling: &'a str,
}

/// The readers and the rules by their names.
const READERS: [(&str, Reader); 19] = [
    ("text", Reader::Text),
    ("show_text", Reader::TextShown),
    ("front", Reader::Front),
    ("head", Reader::Head),
    ("instr", Reader::Instruction),
    ("document", Reader::Document),
    ("show_document", Reader::DocumentShown),
    ("show_document_text", Reader::DocumentText),
    ("target", Reader::Target),
    ("show_target", Reader::TargetShown),
    ("verify", Reader::Verified),
    ("paths", Reader::Judged(Judge::Paths)),
    ("kind", Reader::Judged(Judge::Kind)),
    ("computes", Reader::Judged(Judge::Computes)),
    ("end", Reader::Judged(Judge::End)),
    ("retire", Reader::Judged(Judge::Retire)),
    ("range", Reader::Judged(Judge::Range)),
    ("flaws", Reader::Judged(Judge::Flaws)),
    ("carried_flaws", Reader::Judged(Judge::CarriedFlaws)),
];

/// The reader that a word names.
fn reader_named(word: &str) -> Option<Reader> {
    for (name, reader) in &READERS {
        if *name == word {
            return Some(*reader);
        }
    }
    None
}

/// The row whose number stands before its spelling.
fn numbered<'a>(reader: Reader, wrapup: bool, rest: &'a str) -> Option<Row<'a>> {
    let (first, spelling) = cut(rest);
    match first.parse::<u32>() {
        Ok(first) => Some(Row {
            reader,
            first,
            version: 1,
            wrapup,
            spelling,
        }),
        Err(_) => None,
    }
}

/// The version that a word names.
fn version_named(word: &str) -> Option<u8> {
    match word {
        "1" => Some(1),
        "2" => Some(2),
        _ => None,
    }
}

/// The row whose number and version stand before its spelling.
fn versioned<'a>(reader: Reader, rest: &'a str) -> Option<Row<'a>> {
    let mut row = numbered(reader, false, rest)?;
    let (version, spelling) = cut(row.spelling);
    row.version = version_named(version)?;
    row.spelling = spelling;
    Some(row)
}

/// The row whose method stands before its number.
fn in_method<'a>(reader: Reader, rest: &'a str) -> Option<Row<'a>> {
    match cut(rest) {
        ("gen", rest) => numbered(reader, false, rest),
        ("wrap", rest) => numbered(reader, true, rest),
        _ => None,
    }
}

/// The row of a reader, of what stands after its name.
fn row_of<'a>(reader: Reader, rest: &'a str) -> Option<Row<'a>> {
    match reader {
        Reader::Front => versioned(reader, rest),
        Reader::Head => numbered(reader, false, rest),
        Reader::Judged(_) => in_method(reader, rest),
        _ => Some(Row {
            reader,
            first: 1,
            version: 1,
            wrapup: false,
            spelling: rest,
        }),
    }
}

impl<'a> Row<'a> {
    /// The row that a line is.
    pub(crate) fn of_line(line: &'a str) -> Option<Row<'a>> {
        let (word, rest) = cut(line);
        row_of(reader_named(word)?, rest)
    }
}
