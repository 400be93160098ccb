//! What a line that may not stand where it does should have been.

ghost use Rattle.std.specs.Prelude.{◌≡◌, ◌+◌, ◌<◌, ◌^◌, length, find, map, option_map, None, Some, MatchOption};
ghost use Rattle.oa_text.specs.Causes.{HasCause};
ghost use Rattle.oa_text.specs.Lines.{lines_of};
ghost use Rattle.oa_text.specs.Shown.{line_shown};
ghost use Rattle.oa_text.specs.Written.{Writes};
ghost use Rattle.messages.specs.Owed.{last_that, is_said_above, is_lower_word, is_mark_above, ends_text, ends_text_above, owed_after, owed_by, is_commit_above, is_entry_between, lacks_of, lacks_entry, begins_part, is_part_above, owed_behind, owed_at, ends_method, is_node_word, is_odd_word, odd_word, is_hash_word, owed_sentence, odd_sentence, form_sentence, end_sentence, form_message, word_message, form_of, script_form, misplaced_by, misplaced_message, end_message};
ghost use Rattle.message_lines.specs.Places.{line_that};

use line_words::words::name;
use message_lines::lines::{begins, entry};
use message_lines::words::{said, trimmed, word_at};
use message_words::line_form;
use oa_text::{Failed, Line, Piece, Sink, Tokens, lines, read_numeral, tokens, write_pieces};

/// What must stand at a line, by the lines above it.
#[derive(Clone, Copy)]
pub(crate) enum Owed {
    /// The version line.
    Version,
    Gen,
    /// `wrap`, before the text may end.
    Wrap,
    /// An instruction of a wrap-up, before the text may end.
    Instruction,
    /// An entry of a commit.
    Entry,
    /// A call, in a script.
    Call,
    /// Nothing that is known.
    Nothing,
}

fn said_above(line: Line, number: u32) -> bool
    ensures { result ≡ is_said_above number (line_shown line.entry) }
{
    line.number() < number && said(line)
}

/// Whether a word begins with a lower-case letter.
fn lower_word(word: &[u8]) -> bool
    ensures { result ≡ is_lower_word word.now }
{
    match word.split_first() {
        None => false,
        Some((first, _)) => b'a' <= *first && *first <= b'z',
    }
}

fn mark_above(line: Line, number: u32) -> bool
    ensures { result ≡ is_mark_above number (line_shown line.entry) }
{
    line.number() < number
        && (begins(line, b"op") && lower_word(word_at(line, 1))
            || (begins(line, b"gen") || begins(line, b"wrap")))
}

/// Whether a document goes on after its text with a line.
fn ends_text(line: Line) -> bool
    ensures { result ≡ ends_text (line_shown line.entry) }
{
    begins(line, b"slots")
        || (begins(line, b"phases")
            || (begins(line, b"fuel") || (begins(line, b"script") || begins(line, b"schedule"))))
}

fn ends_text_above(line: Line, number: u32) -> bool
    ensures { result ≡ ends_text_above number (line_shown line.entry) }
{
    line.number() < number && ends_text(line)
}

/// The last line above a number that says something.
#[tactic(auto, using(crate::proofs::Lasts::last_more, crate::proofs::Lasts::last_passed, crate::proofs::Lasts::last_done))]
fn last_said<'a>(bytes: &'a [u8], number: u32) -> Option<Line<'a>>
    requires { length (lines_of bytes.now) + 1 < 2 ^ 32 }
    ensures { option_map line_shown result ≡ last_that (is_said_above number) bytes.now }
{
    let mut last = None;
    for line in lines(bytes) {
        if said_above(line, number) {
            last = Some(line);
        }
    }
    last
}

/// The last line above a number that begins an operation or one of its methods.
#[tactic(auto, using(crate::proofs::Lasts::last_more, crate::proofs::Lasts::last_passed, crate::proofs::Lasts::last_done))]
fn last_mark<'a>(bytes: &'a [u8], number: u32) -> Option<Line<'a>>
    requires { length (lines_of bytes.now) + 1 < 2 ^ 32 }
    ensures { option_map line_shown result ≡ last_that (is_mark_above number) bytes.now }
{
    let mut last = None;
    for line in lines(bytes) {
        if mark_above(line, number) {
            last = Some(line);
        }
    }
    last
}

/// Whether a document has gone on after its text above a number.
#[tactic(auto, using(message_lines::proofs::Searches::found, message_lines::proofs::Searches::passed, message_lines::proofs::Searches::missed))]
fn text_end<'a>(bytes: &'a [u8], number: u32) -> Option<Line<'a>>
    requires { length (lines_of bytes.now) + 1 < 2 ^ 32 }
    ensures { MatchOption result (line_that (ends_text_above number) bytes.now 0 ≡ None) (λ line. line_that (ends_text_above number) bytes.now 0 ≡ Some (line_shown line)) }
{
    for line in lines(bytes) {
        if ends_text_above(line, number) {
            return Some(line);
        }
    }
    None
}

/// What must follow a line that begins an operation or a method, if this is the last line that says something.
fn owed_after(mark: Line, said: Line) -> Owed
    ensures { result ≡ owed_after (line_shown mark.entry) (line_shown said.entry) }
{
    if begins(mark, b"op") {
        Owed::Gen
    } else if begins(mark, b"gen") {
        Owed::Wrap
    } else if mark.number() == said.number() {
        Owed::Instruction
    } else {
        Owed::Nothing
    }
}

fn owed_by(mark: Option<Line>, said: Option<Line>) -> Owed
    ensures { result ≡ owed_by (option_map line_shown mark.entry) (option_map line_shown said.entry) }
{
    match said {
        None => Owed::Version,
        Some(said) => match mark {
            None => Owed::Nothing,
            Some(mark) => owed_after(mark, said),
        },
    }
}

fn commit_above(line: Line, number: u32) -> bool
    ensures { result ≡ is_commit_above number (line_shown line.entry) }
{
    line.number() < number && begins(line, b"commit")
}

fn entry_between(line: Line, after: u32, number: u32) -> bool
    ensures { result ≡ is_entry_between after number (line_shown line.entry) }
{
    after < line.number() && (line.number() < number && entry(line))
}

/// The last commit above a number.
#[tactic(auto, using(crate::proofs::Lasts::last_more, crate::proofs::Lasts::last_passed, crate::proofs::Lasts::last_done))]
fn last_commit<'a>(bytes: &'a [u8], number: u32) -> Option<Line<'a>>
    requires { length (lines_of bytes.now) + 1 < 2 ^ 32 }
    ensures { option_map line_shown result ≡ last_that (is_commit_above number) bytes.now }
{
    let mut last = None;
    for line in lines(bytes) {
        if commit_above(line, number) {
            last = Some(line);
        }
    }
    last
}

/// Of the entries of commits between two numbers the one at a place, from 0.
#[tactic(auto, using(message_lines::proofs::Searches::found, message_lines::proofs::Searches::counted, message_lines::proofs::Searches::passed, message_lines::proofs::Searches::missed))]
fn entry_line<'a>(bytes: &'a [u8], after: u32, number: u32, at: usize) -> Option<Line<'a>>
    requires { length (lines_of bytes.now) + 1 < 2 ^ 32 }
    ensures { MatchOption result (line_that (is_entry_between after number) bytes.now at ≡ None) (λ line. line_that (is_entry_between after number) bytes.now at ≡ Some (line_shown line)) }
{
    let mut left = at;
    for line in lines(bytes) {
        if entry_between(line, after, number) {
            if left == 0 {
                return Some(line);
            }
            left -= 1;
        }
    }
    None
}

/// Whether fewer entries than a commit says follow it above a number.
fn lacks_of(bytes: &[u8], after: u32, number: u32, said: Option<Option<u64>>) -> bool
    requires { length (lines_of bytes.now) + 1 < 2 ^ 32 }
    ensures { result ≡ lacks_of bytes.now after number said }
{
    match said {
        Some(Some(count)) => {
            0 < count && entry_line(bytes, after, number, count as usize - 1).is_none()
        }
        Some(None) => false,
        None => false,
    }
}

/// Whether the last commit above a number lacks an entry.
fn lacks_entry(bytes: &[u8], number: u32) -> bool
    requires { length (lines_of bytes.now) + 1 < 2 ^ 32 }
    ensures { result ≡ lacks_entry bytes.now number }
{
    match last_commit(bytes, number) {
        None => false,
        Some(commit) => lacks_of(
            bytes,
            commit.number(),
            number,
            read_numeral(word_at(commit, 1)),
        ),
    }
}

/// Whether a line begins a script or the schedule.
fn begins_part(line: Line) -> bool
    ensures { result ≡ begins_part (line_shown line.entry) }
{
    begins(line, b"script") || begins(line, b"schedule")
}

fn part_above(line: Line, number: u32) -> bool
    ensures { result ≡ is_part_above number (line_shown line.entry) }
{
    line.number() < number && begins_part(line)
}

/// The last line above a number that begins a script or the schedule.
#[tactic(auto, using(crate::proofs::Lasts::last_more, crate::proofs::Lasts::last_passed, crate::proofs::Lasts::last_done))]
fn last_part<'a>(bytes: &'a [u8], number: u32) -> Option<Line<'a>>
    requires { length (lines_of bytes.now) + 1 < 2 ^ 32 }
    ensures { option_map line_shown result ≡ last_that (is_part_above number) bytes.now }
{
    let mut last = None;
    for line in lines(bytes) {
        if part_above(line, number) {
            last = Some(line);
        }
    }
    last
}

/// What stands after a text, by the last line that begins a script or the schedule.
fn owed_behind(part: Option<Line>) -> Owed
    ensures { result ≡ owed_behind (option_map line_shown part.entry) }
{
    match part {
        None => Owed::Nothing,
        Some(part) => {
            if begins(part, b"script") {
                Owed::Call
            } else {
                Owed::Nothing
            }
        }
    }
}

/// What must stand at a line with a number, by the lines above it.
pub(crate) fn owed_at(bytes: &[u8], number: u32) -> Owed
    requires { length (lines_of bytes.now) + 1 < 2 ^ 32 }
    ensures { result ≡ owed_at bytes.now number }
{
    if text_end(bytes, number).is_some() {
        return owed_behind(last_part(bytes, number));
    }
    if lacks_entry(bytes, number) {
        return Owed::Entry;
    }
    owed_by(last_mark(bytes, number), last_said(bytes, number))
}

/// Whether a line ends the method that stands before it.
fn ends_method(line: Line) -> bool
    ensures { result ≡ ends_method (line_shown line.entry) }
{
    begins(line, b"op") || ends_text(line)
}

/// Whether a word is `@J`, where J is spelled as a number.
fn node_word(word: &[u8]) -> bool
    ensures { result ≡ is_node_word word.now }
{
    match word.split_first() {
        None => false,
        Some((first, rest)) => *first == b'@' && read_numeral(rest).is_some(),
    }
}

/// Whether a word is spelled as no word of the language is.
fn odd(word: &[u8]) -> bool
    ensures { result ≡ is_odd_word word.now }
{
    !(name(word) || (read_numeral(word).is_some() || node_word(word)))
}

/// The first word that is spelled as no word of the language is.
#[tactic(auto, using(count_messages::proofs::Straying::word_met, count_messages::proofs::Straying::word_left, count_messages::proofs::Straying::words_done))]
fn odd_token<'a>(tokens: Tokens<'a>) -> Option<&'a [u8]>
    ensures { MatchOption result (find is_odd_word (map (λ token. token.bytes) tokens.entry) ≡ None) (λ word. find is_odd_word (map (λ token. token.bytes) tokens.entry) ≡ Some word.now) }
{
    for token in tokens {
        if odd(token.bytes()) {
            return Some(token.bytes());
        }
    }
    None
}

/// The first word of a line that is spelled as no word of the language is.
fn odd_word<'a>(line: Line<'a>) -> Option<&'a [u8]>
    ensures { MatchOption result (odd_word (line_shown line.entry) ≡ None) (λ word. odd_word (line_shown line.entry) ≡ Some word.now) }
{
    match tokens(line) {
        Ok(tokens) => odd_token(tokens),
        Err(_) => None,
    }
}

/// Whether a word begins a comment.
fn hash_word(word: &[u8]) -> bool
    ensures { result ≡ is_hash_word word.now }
{
    match word.split_first() {
        None => false,
        Some((first, _)) => *first == b'#',
    }
}

/// Writes what must stand in a line's place.
fn write_owed<'a, K: Sink>(errors: &mut K, line: Line<'a>, owed: &'a [u8]) -> Result<(), Failed>
    ensures bytes { Writes (K.written errors.old) (K.written errors.new) (owed_sentence (line_shown line.entry) owed.now) result }
    ensures cause { HasCause (K.faults errors.old) (K.faults errors.new) result }
{
    write_pieces(
        errors,
        &[
            Piece::Bytes(b"oa: line "),
            Piece::Number(line.number() as u64),
            Piece::Bytes(b" is at fault: it is '"),
            Piece::Bytes(trimmed(line)),
            Piece::Bytes(b"', and "),
            Piece::Bytes(owed),
            Piece::Bytes(b". See 'Faults' in docs/language.md.\n"),
        ],
    )
}

/// Writes which word of a line is none of the language.
fn write_odd<'a, K: Sink>(errors: &mut K, line: Line<'a>, word: &'a [u8]) -> Result<(), Failed>
    ensures bytes { Writes (K.written errors.old) (K.written errors.new) (odd_sentence (line_shown line.entry) word.now) result }
    ensures cause { HasCause (K.faults errors.old) (K.faults errors.new) result }
{
    write_pieces(
        errors,
        &[
            Piece::Bytes(b"oa: line "),
            Piece::Number(line.number() as u64),
            Piece::Bytes(b" is at fault: '"),
            Piece::Bytes(word),
            Piece::Bytes(
                b"' is neither a name (at most 16 lower-case letters, digits and _, a letter first), nor a number (decimal, without a sign or a leading 0), nor a node (like @1). See 'Lines and tokens' in docs/language.md.\n",
            ),
        ],
    )
}

/// Writes how a line that begins so is spelled, and where it may stand.
fn write_form<'a, K: Sink>(errors: &mut K, line: Line<'a>, form: &'a [u8]) -> Result<(), Failed>
    ensures bytes { Writes (K.written errors.old) (K.written errors.new) (form_sentence (line_shown line.entry) form.now) result }
    ensures cause { HasCause (K.faults errors.old) (K.faults errors.new) result }
{
    write_pieces(
        errors,
        &[
            Piece::Bytes(b"oa: line "),
            Piece::Number(line.number() as u64),
            Piece::Bytes(b" is at fault: it is '"),
            Piece::Bytes(trimmed(line)),
            Piece::Bytes(b"', and such a line is spelled "),
            Piece::Bytes(form),
            Piece::Bytes(b". See 'Faults' in docs/language.md.\n"),
        ],
    )
}

/// Writes what must stand where a document ends.
fn write_end<K: Sink>(errors: &mut K, number: u32, owed: &[u8]) -> Result<(), Failed>
    ensures bytes { Writes (K.written errors.old) (K.written errors.new) (end_sentence number owed.now) result }
    ensures cause { HasCause (K.faults errors.old) (K.faults errors.new) result }
{
    write_pieces(
        errors,
        &[
            Piece::Bytes(b"oa: line "),
            Piece::Number(number as u64),
            Piece::Bytes(b" is at fault: the document ends there, and "),
            Piece::Bytes(owed),
            Piece::Bytes(b". See 'Faults' in docs/language.md.\n"),
        ],
    )
}

fn explain_form<K: Sink>(errors: &mut K, line: Line, form: &'static [u8]) -> Result<(), Failed>
    ensures bytes { Writes (K.written errors.old) (K.written errors.new) (form_message (line_shown line.entry) form.now) result }
    ensures cause { HasCause (K.faults errors.old) (K.faults errors.new) result }
{
    if form.is_empty() {
        write_owed(errors, line, b"no line that may stand there begins so")
    } else {
        write_form(errors, line, form)
    }
}

/// How a line is spelled, by its first word.
fn form_of(line: Line) -> &'static [u8]
    ensures { result.now ≡ form_of (line_shown line.entry) }
{
    line_form(word_at(line, 0))
}

/// How a line of a script is spelled.
#[tactic(auto, unfolding(crate::specs::Owed::script_form))]
fn script_form(line: Line) -> &'static [u8]
    ensures { result.now ≡ script_form (line_shown line.entry) }
{
    if begins_part(line) || begins(line, b"events") {
        form_of(line)
    } else {
        b"'NAME V V ..' in a script, with as many numbers as the operation has arguments"
    }
}

fn explain_words<K: Sink>(errors: &mut K, line: Line, form: &'static [u8]) -> Result<(), Failed>
    ensures bytes { Writes (K.written errors.old) (K.written errors.new) (word_message (line_shown line.entry) form.now (odd_word (line_shown line.entry))) result }
    ensures cause { HasCause (K.faults errors.old) (K.faults errors.new) result }
{
    match odd_word(line) {
        None => explain_form(errors, line, form),
        Some(word) => {
            if hash_word(word) {
                write_owed(errors, line, b"a comment must have a line of its own")
            } else {
                write_odd(errors, line, word)
            }
        }
    }
}

fn explain_owed<K: Sink>(errors: &mut K, line: Line, owed: Owed) -> Result<(), Failed>
    ensures bytes { Writes (K.written errors.old) (K.written errors.new) (misplaced_by owed (line_shown line.entry)) result }
    ensures cause { HasCause (K.faults errors.old) (K.faults errors.new) result }
{
    match owed {
        Owed::Version => write_owed(errors, line, b"the first line must be 'oa 1' or 'oa 2'"),
        Owed::Gen => write_owed(errors, line, b"'gen' must follow the op line"),
        Owed::Wrap if ends_method(line) => {
            write_owed(
                errors,
                line,
                b"'wrap' and the wrap-up must follow the generator",
            )
        }
        Owed::Instruction if ends_method(line) => {
            write_owed(errors, line, b"an instruction must follow 'wrap'")
        }
        Owed::Entry if !entry(line) => {
            write_owed(
                errors,
                line,
                b"an entry of the commit, 'with' or 'withroot', must follow",
            )
        }
        Owed::Entry => explain_words(errors, line, form_of(line)),
        Owed::Wrap => explain_words(errors, line, form_of(line)),
        Owed::Instruction => explain_words(errors, line, form_of(line)),
        Owed::Call => explain_words(errors, line, script_form(line)),
        Owed::Nothing => explain_words(errors, line, form_of(line)),
    }
}

/// Writes what a line that may not stand where it does should have been.
pub(crate) fn explain_misplaced<K: Sink>(
    errors: &mut K,
    bytes: &[u8],
    line: Line,
) -> Result<(), Failed>
    requires { length (lines_of bytes.now) + 1 < 2 ^ 32 }
    ensures bytes { Writes (K.written errors.old) (K.written errors.new) (misplaced_message bytes.now (line_shown line.entry)) result }
    ensures cause { HasCause (K.faults errors.old) (K.faults errors.new) result }
{
    explain_owed(errors, line, owed_at(bytes, line.number()))
}

/// Writes what must follow where a document ends.
pub(crate) fn explain_end<K: Sink>(errors: &mut K, number: u32, owed: Owed) -> Result<(), Failed>
    ensures bytes { Writes (K.written errors.old) (K.written errors.new) (end_message number owed) result }
    ensures cause { HasCause (K.faults errors.old) (K.faults errors.new) result }
{
    match owed {
        Owed::Version => write_end(errors, number, b"the first line must be 'oa 1' or 'oa 2'"),
        Owed::Gen => write_end(errors, number, b"'gen' must follow the op line"),
        Owed::Wrap => write_end(
            errors,
            number,
            b"'wrap' and the wrap-up must follow the generator",
        ),
        Owed::Instruction => write_end(errors, number, b"an instruction must follow 'wrap'"),
        Owed::Entry => write_end(
            errors,
            number,
            b"an entry of the commit, 'with' or 'withroot', must follow",
        ),
        Owed::Call => write_end(errors, number, b"a further line must follow"),
        Owed::Nothing => write_end(errors, number, b"a further line must follow"),
    }
}
