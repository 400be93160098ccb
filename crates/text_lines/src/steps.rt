//! A line of a method, and an entry line of a commit, by its first word.

ghost use Rattle.std.specs.Prelude.{◌≡◌, ◌≤◌, length};
ghost use Rattle.std.specs.Str.{bytes_eq};
ghost use Rattle.norm_lang.specs.Instructions.{step_line, entry_line};
ghost use Rattle.line_words.specs.Answered.{Reads};
ghost use Rattle.text_lines.specs.Steps.{step_shown, whole_read, instr_line, access_line, flow_line};

use crate::instructions;
use line_words::fault::Fault;
use line_words::words::Words;
use norm_lang::text::{CasEntry, FieldDecl, Instr, Name, RootDecl, Version};

/// What a line of a method says.
#[derive(Drop)]
pub enum Step {
    /// A whole instruction.
    Whole(Instr),
    /// A commit whose entry lines follow: their count, at most 4.
    Commits(u8),
}

/// Whether a word is this very one.
fn says(word: &[u8], wanted: &[u8]) -> bool
    ensures { result ≡ bytes_eq word.now wanted.now }
{
    word == wanted
}

/// A whole instruction, or the line's fault.
fn whole(read: Result<Instr, Fault>) -> Result<Step, Fault>
    ensures { result ≡ whole_read read }
{
    match read {
        Ok(instr) => Ok(Step::Whole(instr)),
        Err(fault) => Err(fault),
    }
}

/// The instruction of a line that jumps, branches or ends a method.
fn flow(word: &[u8], words: Words) -> Result<Instr, Fault>
    ensures { Reads (λ i. i) result (flow_line word.now words.entry) }
{
    if says(word, b"jump") {
        instructions::jump(words)
    } else if says(word, b"ifeq") {
        instructions::if_equal(words)
    } else if says(word, b"ifless") {
        instructions::if_less(words)
    } else if says(word, b"ifmarked") {
        instructions::if_marked(words)
    } else if says(word, b"return") {
        instructions::return_number(words)
    } else if says(word, b"returnnone") {
        instructions::return_none(words)
    } else if says(word, b"again") {
        instructions::again(words)
    } else {
        Err(Fault::Form)
    }
}

/// The instruction of a load, a fresh node, a put or an exchange, or else of a line of `flow`.
fn access(
    version: Version,
    kinds: &[Name],
    fields: &[FieldDecl],
    roots: &[RootDecl],
    word: &[u8],
    words: Words,
) -> Result<Instr, Fault>
    requires few_kinds { length kinds.now ≤ 4 }
    requires few_fields { length fields.now ≤ 16 }
    requires few_roots { length roots.now ≤ 256 }
    ensures { Reads (λ i. i) result (access_line version kinds.now fields.now roots.now word.now words.entry) }
{
    if says(word, b"root") {
        instructions::load_root(roots, words)
    } else if says(word, b"pick") {
        instructions::pick(roots, words)
    } else if says(word, b"load") {
        instructions::load_field(fields, words)
    } else if says(word, b"new") {
        instructions::fresh(version, kinds, words)
    } else if says(word, b"put") {
        instructions::put(fields, words)
    } else if says(word, b"cas") {
        instructions::cas(fields, words)
    } else if says(word, b"casroot") {
        instructions::cas_root(roots, words)
    } else {
        flow(word, words)
    }
}

/// The instruction of a line that sets a register from others, or else of a line of `access`.
fn read_instr(
    version: Version,
    kinds: &[Name],
    fields: &[FieldDecl],
    roots: &[RootDecl],
    word: &[u8],
    words: Words,
) -> Result<Instr, Fault>
    requires few_kinds { length kinds.now ≤ 4 }
    requires few_fields { length fields.now ≤ 16 }
    requires few_roots { length roots.now ≤ 256 }
    ensures { Reads (λ i. i) result (instr_line version kinds.now fields.now roots.now word.now words.entry) }
{
    if says(word, b"set") {
        instructions::set(words)
    } else if says(word, b"mov") {
        instructions::mov(words)
    } else if says(word, b"add") {
        instructions::add(words)
    } else if says(word, b"sub") {
        instructions::sub(words)
    } else if says(word, b"rem") {
        instructions::rem(words)
    } else if says(word, b"null") {
        instructions::null(words)
    } else if says(word, b"mark") {
        instructions::mark(words)
    } else if says(word, b"unmark") {
        instructions::unmark(words)
    } else {
        access(version, kinds, fields, roots, word, words)
    }
}

/// A line of a method: the beginning of a commit, or an instruction that one line says whole.
///
/// # Errors
///
/// The line's first fault in this order: `Form` if it is no line of a method, `Number` if a number exceeds 2^64 - 1,
/// `UnknownName` if it names a kind, a field or a root that isn't declared, `TooMany` if it leads past instruction 65,535,
/// picks among more than 256, or begins a commit of more than 4 entries.
#[tactic(auto, using(crate::proofs::Wholes::commit_begins))]
pub fn read_step(
    version: Version,
    kinds: &[Name],
    fields: &[FieldDecl],
    roots: &[RootDecl],
    word: &[u8],
    words: Words,
) -> Result<Step, Fault>
    requires few_kinds { length kinds.now ≤ 4 }
    requires few_fields { length fields.now ≤ 16 }
    requires few_roots { length roots.now ≤ 256 }
    ensures { Reads step_shown result (step_line version kinds.now fields.now roots.now word.now words.entry) }
{
    if says(word, b"commit") {
        Ok(Step::Commits(instructions::commit(words)?))
    } else {
        whole(read_instr(version, kinds, fields, roots, word, words))
    }
}

/// An entry line of a commit.
///
/// # Errors
///
/// The line's first fault in this order: `Form` if the words are no entry line, `UnknownName` if it names a field or a
/// root that isn't declared.
pub fn read_entry(
    fields: &[FieldDecl],
    roots: &[RootDecl],
    word: &[u8],
    words: Words,
) -> Result<CasEntry, Fault>
    requires few_fields { length fields.now ≤ 16 }
    requires few_roots { length roots.now ≤ 256 }
    ensures { Reads (λ entry. entry) result (entry_line fields.now roots.now word.now words.entry) }
{
    if says(word, b"with") {
        instructions::field_entry(fields, words)
    } else if says(word, b"withroot") {
        instructions::root_entry(roots, words)
    } else {
        Err(Fault::Form)
    }
}
