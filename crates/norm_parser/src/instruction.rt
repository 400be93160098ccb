//! One instruction, with the entry lines of a commit.

ghost use Rattle.std.specs.Prelude.{◌≡◌, ◌+◌, ◌<◌, ◌≤◌, ◌^◌, length, map, vec_len, vec_capacity, IsTrue, IfErr, false, []};
ghost use Rattle.oa_text.specs.Shown.{line_shown};
ghost use Rattle.oa_text.specs.Tokens.{words_of};
ghost use Rattle.norm_lang.specs.Limits.{are_different};
ghost use Rattle.line_words.specs.Answered.{Reads, Answers};
ghost use Rattle.line_words.specs.Lines.{first_word};
ghost use Rattle.text_lines.specs.Steps.{step_shown};
ghost use Rattle.norm_parser.specs.Instruction.{are_skipped, AreFrom, AreLeftOf, AreLeftAt, AreAfter, step_in, step_of, entry_in, entry_of, next_entry, entries_from, completed, instr_read};

use line_words::fault::{Fault, ParseError, Stop};
use line_words::words::Words;
use norm_lang::list::Listed;
use norm_lang::text::{
    CasEntry, Entries, FieldDecl, Fields, Instr, Kinds, Name, RootDecl, Roots, Version,
};
use oa_text::{Line, Lines};
use std::alloc::Global;
use text_lines::{Step, read_entry, read_step};

/// What the words of an instruction's own line say.
fn step_in(
    kinds: &[Name],
    fields: &[FieldDecl],
    roots: &[RootDecl],
    mut words: Words,
) -> Result<Step, Fault>
    requires few_kinds { length kinds.now ≤ 4 }
    requires few_fields { length fields.now ≤ 16 }
    requires few_roots { length roots.now ≤ 256 }
    ensures { Reads step_shown result (step_in kinds.now fields.now roots.now words.entry) }
{
    let word = words.word()?;
    read_step(Version::Second, kinds, fields, roots, word, words)
}

/// What an instruction's own line says.
fn step_of(
    kinds: &[Name],
    fields: &[FieldDecl],
    roots: &[RootDecl],
    line: Line,
) -> Result<Step, Fault>
    requires few_kinds { length kinds.now ≤ 4 }
    requires few_fields { length fields.now ≤ 16 }
    requires few_roots { length roots.now ≤ 256 }
    ensures { Reads step_shown result (step_of kinds.now fields.now roots.now (line_shown line.entry)) }
{
    step_in(kinds, fields, roots, Words::new(line)?)
}

/// The entry that a line's words say: `None` if it is skipped.
fn entry_in(
    fields: &[FieldDecl],
    roots: &[RootDecl],
    mut words: Words,
) -> Result<Option<CasEntry>, Fault>
    requires few_fields { length fields.now ≤ 16 }
    requires few_roots { length roots.now ≤ 256 }
    ensures { Reads (λ entry. entry) result (entry_in fields.now roots.now (first_word words.entry)) }
{
    match words.first() {
        None => Ok(None),
        Some(word) => Ok(Some(read_entry(fields, roots, word, words)?)),
    }
}

/// The entry that a line says: `None` if it is skipped.
fn entry_of(fields: &[FieldDecl], roots: &[RootDecl], line: Line) -> Result<Option<CasEntry>, Fault>
    requires few_fields { length fields.now ≤ 16 }
    requires few_roots { length roots.now ≤ 256 }
    ensures { Reads (λ entry. entry) result (entry_of fields.now roots.now (line_shown line.entry)) }
{
    entry_in(fields, roots, Words::new(line)?)
}

/// The next entry among the lines that are left, which are numbered from `next` on.
#[tactic(auto, using(crate::proofs::LinesLeft::number_is, crate::proofs::LinesLeft::from_next, crate::proofs::LinesLeft::left_all, crate::proofs::LinesLeft::left_next, crate::proofs::LinesAfter::after_faulty, crate::proofs::LinesAfter::after_all))]
fn next_entry(
    fields: &[FieldDecl],
    roots: &[RootDecl],
    next: &mut u32,
    rest: &mut Lines,
) -> Result<CasEntry, ParseError>
    requires few_fields { length fields.now ≤ 16 }
    requires few_roots { length roots.now ≤ 256 }
    requires ordered { AreFrom next.old rest.old }
    requires room { next.old + length rest.old < 2 ^ 32 }
    ensures entry { Answers (λ entry. (entry, rest.new)) result (next_entry fields.now roots.now (next.old + length rest.old) rest.old) }
    ensures fault { IfErr result (λ error. AreAfter (next.old + length rest.old) error rest.new) }
    ensures ordered { AreFrom next.new rest.new }
    ensures past { next.new + length rest.new ≡ next.old + length rest.old }
    ensures left { AreLeftOf rest.old rest.new }
{
    'lines: while let Some(line) = rest.next() {
        *next += 1;
        match entry_of(fields, roots, line) {
            Ok(None) => {}
            Ok(Some(entry)) => return Ok(entry),
            Err(fault) => return Err(Stop::Fault(fault).at(line.number())),
        }
    }
    Err(Stop::Fault(Fault::Form).at(*next))
}

/// Adds the entries of a commit to none, where there is room for them.
#[tactic(auto, using(crate::proofs::LinesLeft::entries_more, crate::proofs::LinesLeft::entries_stopped, crate::proofs::LinesLeft::entries_done, crate::proofs::LinesLeft::left_all, crate::proofs::LinesLeft::left_more, crate::proofs::LinesAfter::after_entry))]
fn add_entries(
    entries: &mut Vec<CasEntry>,
    fields: &[FieldDecl],
    roots: &[RootDecl],
    count: u8,
    next: &mut u32,
    rest: &mut Lines,
) -> Result<(), ParseError>
    requires few_fields { length fields.now ≤ 16 }
    requires few_roots { length roots.now ≤ 256 }
    requires ordered { AreFrom next.old rest.old }
    requires room { next.old + length rest.old < 2 ^ 32 }
    requires places { vec_len entries.old + count ≤ vec_capacity entries.old }
    ensures entries { Answers (λ _. (entries.new.items, rest.new)) result (entries_from fields.now roots.now (next.old + length rest.old) count entries.old.items rest.old) }
    ensures fault { IfErr result (λ error. AreAfter (next.old + length rest.old) error rest.new) }
    ensures left { AreLeftOf rest.old rest.new }
{
    for _ in 0..count {
        let entry = next_entry(fields, roots, next, rest)?;
        entries.push_reserved(entry);
    }
    Ok(())
}

/// The entries of a commit. Room for all of them is taken before the first line is, so that no line is taken if memory runs
/// out.
#[tactic(auto, using(crate::proofs::LinesLeft::left_all, crate::proofs::LinesAfter::left_at))]
fn entries(
    alloc: Global,
    fields: &[FieldDecl],
    roots: &[RootDecl],
    count: u8,
    next: &mut u32,
    rest: &mut Lines,
) -> Result<Entries, ParseError>
    requires few_fields { length fields.now ≤ 16 }
    requires few_roots { length roots.now ≤ 256 }
    requires ordered { AreFrom next.old rest.old }
    requires room { next.old + length rest.old < 2 ^ 32 }
    ensures entries { Answers (λ entries. (entries, rest.new)) result (entries_from fields.now roots.now (next.old + length rest.old) count [] rest.old) }
    ensures fault { IfErr result (λ error. AreLeftAt error rest.old rest.new) }
    ensures left { AreLeftOf rest.old rest.new }
{
    let mut entries = Vec::with_capacity(alloc, count as usize)?;
    match add_entries(&mut entries, fields, roots, count, next, rest) {
        Ok(()) => Ok(Listed::from_vec(entries)),
        Err(stop) => Err(stop),
    }
}

/// The instruction of a step. For a commit its entry lines are taken from `rest`, whose first line would have the number
/// `next`.
#[tactic(auto, using(crate::proofs::LinesLeft::left_all))]
fn completed(
    alloc: Global,
    fields: &[FieldDecl],
    roots: &[RootDecl],
    step: Step,
    next: u32,
    rest: &mut Lines,
) -> Result<Instr, ParseError>
    requires few_fields { length fields.now ≤ 16 }
    requires few_roots { length roots.now ≤ 256 }
    requires ordered { AreFrom next rest.old }
    requires room { next + length rest.old < 2 ^ 32 }
    ensures instr { Answers (λ i. (i, rest.new)) result (completed fields.now roots.now (next + length rest.old) (step_shown step) rest.old) }
    ensures fault { IfErr result (λ error. AreLeftAt error rest.old rest.new) }
    ensures left { AreLeftOf rest.old rest.new }
{
    let mut next = next;
    match step {
        Step::Whole(instr) => Ok(instr),
        Step::Commits(count) => match entries(alloc, fields, roots, count, &mut next, rest) {
            Ok(entries) => Ok(Instr::Commit(entries)),
            Err(error) => Err(error),
        },
    }
}

/// The instruction that begins with the line `first`, in the second version. For a commit its entry lines are taken from
/// `rest`, which holds the lines after `first`, up to the end of the input.
///
/// `first` isn't skipped, the input has fewer than 2^32 - 1 lines, there are at most 4 kinds, 16 fields and 256 roots, and no
/// two fields and no two roots have one name.
///
/// # Errors
///
/// `Memory` if memory ran out; `rest` is then as it was. `Fault` if the lines are no instruction: the first of them that
/// has a fault, with its first fault; if the input ends before the last entry line, fault 4 at one more than the number
/// of lines. Then `rest` holds the lines after the fault's line: all of them if that line is `first`, and none if the
/// input ended.
#[tactic(auto, using(crate::proofs::LinesLeft::left_all, crate::proofs::LinesAfter::all_after))]
pub fn parse_instr<'a>(
    alloc: Global,
    first: Line<'a>,
    rest: &mut Lines<'a>,
    fields: &Fields,
    roots: &Roots,
    kinds: &Kinds,
) -> Result<Instr, ParseError>
    requires stands { are_skipped (words_of (line_shown first).bytes) ≡ false }
    requires behind { AreFrom ((line_shown first).number + 1) rest.old }
    requires room { (line_shown first).number + 1 + length rest.old < 2 ^ 32 }
    requires few_kinds { length kinds.now ≤ 4 }
    requires few_fields { length fields.now ≤ 16 }
    requires few_roots { length roots.now ≤ 256 }
    requires fields_differ { IsTrue (are_different (map (λ field. field.name) fields.now)) }
    requires roots_differ { IsTrue (are_different (map (λ root. root.name) roots.now)) }
    ensures instr { Answers (λ i. (i, rest.new)) result (instr_read kinds.now fields.now roots.now (line_shown first.entry) rest.old) }
    ensures fault { IfErr result (λ error. AreLeftAt error rest.old rest.new) }
    ensures left { AreLeftOf rest.old rest.new }
{
    let fields = fields.items();
    let roots = roots.items();
    let number = first.number();
    match step_of(kinds.items(), fields, roots, first) {
        Err(fault) => Err(Stop::Fault(fault).at(number)),
        Ok(step) => completed(alloc, fields, roots, step, number + 1, rest),
    }
}
