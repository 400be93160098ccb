//! What a line adds to a draft, by where it stands.

ghost use Rattle.std.specs.Prelude.{◌≡◌, ◌≤◌, ◌==◌, suc, length, Ok};
ghost use Rattle.norm_lang.specs.Declarations.{groups_begun};
ghost use Rattle.norm_lang.specs.Grammar.{has_room, with_step, in_start, next_kind, next_field, next_count, first_declared, in_opening, in_kinds, in_fields, in_counts, in_nodes, in_roots, in_begun, in_method, in_generator, next_op, in_wrap_up, in_section, in_place};
ghost use Rattle.line_words.specs.Answered.{Gives};
ghost use Rattle.text_lines.specs.Steps.{step_shown};
ghost use Rattle.norm_parser.specs.DraftShown.{draft_shown};

use crate::draft::{Draft, Section};
use line_words::fault::{Fault, Stop};
use line_words::words::Words;
use norm_lang::limits::{MOST_INSTRS, MOST_NEWS};
use norm_lang::text::{Instr, Version};
use std::alloc::Global;
use text_lines::{Step, declarations, read_entry, read_step};

/// Puts another draft in the place of one. It stands alone, since dropping a draft is proved on each way out.
fn replace(draft: &mut Draft, new: Draft)
    ensures { draft_shown draft.new ≡ draft_shown new }
{
    *draft = new;
}

/// The version line.
fn in_start(draft: &mut Draft, alloc: Global, word: &[u8], words: Words) -> Result<(), Stop>
    ensures { Gives (λ _. draft_shown draft.new) result (in_start (draft_shown draft.old) word.now words.entry) }
{
    if word != b"oa".as_slice() {
        return Err(Stop::Fault(Fault::Form));
    }
    let version = declarations::version(words)?;
    replace(draft, Draft::at(alloc, version, Section::Opening)?);
    Ok(())
}

/// One more kind.
fn next_kind(draft: &mut Draft, alloc: Global, words: Words) -> Result<(), Stop>
    ensures { Gives (λ _. draft_shown draft.new) result (next_kind (draft_shown draft.old) words.entry) }
{
    let name = declarations::kind(alloc, draft.text.kinds.items(), words)?;
    draft.add_kind(name)?;
    Ok(())
}

/// One more field.
fn next_field(draft: &mut Draft, alloc: Global, words: Words) -> Result<(), Stop>
    requires few_kinds { length draft.old.text.kinds ≤ 4 }
    ensures { Gives (λ _. draft_shown draft.new) result (next_field (draft_shown draft.old) words.entry) }
{
    let field = declarations::field(
        alloc,
        draft.version,
        draft.text.kinds.items(),
        draft.text.fields.items(),
        words,
    )?;
    draft.add_field(field)?;
    Ok(())
}

/// The count of nodes of the next kind.
#[tactic(auto, using(crate::proofs::Counts::turn_is_kind))]
fn next_count(draft: &mut Draft, words: Words) -> Result<(), Stop>
    requires few_kinds { length draft.old.text.kinds ≤ 4 }
    ensures { Gives (λ _. draft_shown draft.new) result (next_count (draft_shown draft.old) words.entry) }
{
    let count = declarations::nodes(
        draft.version,
        draft.text.kinds.items(),
        draft.counted,
        draft.owners.items().len(),
        words,
    )?;
    draft.add_count(count)?;
    Ok(())
}

/// The first kind, or in the first version, whose lines declare none, the first field.
fn first_declared(draft: &mut Draft, alloc: Global, word: &[u8], words: Words) -> Result<(), Stop>
    requires few_kinds { length draft.old.text.kinds ≤ 4 }
    ensures { Gives (λ _. draft_shown draft.new) result (first_declared (draft_shown draft.old).version (draft_shown draft.old) word.now words.entry) }
{
    match draft.version {
        Version::First if word == b"field".as_slice() => next_field(draft, alloc, words),
        Version::Second if word == b"kind".as_slice() => next_kind(draft, alloc, words),
        _ => Err(Stop::Fault(Fault::Form)),
    }
}

/// A shipped text, or the first declaration.
fn in_opening(draft: &mut Draft, alloc: Global, word: &[u8], words: Words) -> Result<(), Stop>
    requires few_kinds { length draft.old.text.kinds ≤ 4 }
    ensures { Gives (λ _. draft_shown draft.new) result (in_opening (draft_shown draft.old) word.now words.entry) }
{
    if word == b"use".as_slice() {
        draft.text = declarations::shipped(alloc, words)?;
        draft.section = Section::Shipped;
        Ok(())
    } else {
        first_declared(draft, alloc, word, words)
    }
}

/// A kind, or the first field.
fn in_kinds(draft: &mut Draft, alloc: Global, word: &[u8], words: Words) -> Result<(), Stop>
    requires few_kinds { length draft.old.text.kinds ≤ 4 }
    ensures { Gives (λ _. draft_shown draft.new) result (in_kinds (draft_shown draft.old) word.now words.entry) }
{
    if word == b"kind".as_slice() {
        next_kind(draft, alloc, words)
    } else if word == b"field".as_slice() {
        next_field(draft, alloc, words)
    } else {
        Err(Stop::Fault(Fault::Form))
    }
}

/// Whether each kind has a field.
fn begun(draft: &Draft) -> bool
    ensures { result ≡ (groups_begun draft.now.text.fields == length draft.now.text.kinds) }
{
    declarations::groups_begun(draft.text.fields.items()) == draft.text.kinds.items().len()
}

/// A field, or if each kind has one, the count of nodes of the first kind.
fn in_fields(draft: &mut Draft, alloc: Global, word: &[u8], words: Words) -> Result<(), Stop>
    requires few_kinds { length draft.old.text.kinds ≤ 4 }
    ensures { Gives (λ _. draft_shown draft.new) result (in_fields (draft_shown draft.old) word.now words.entry) }
{
    if word == b"field".as_slice() {
        next_field(draft, alloc, words)
    } else if word == b"nodes".as_slice() && begun(draft) {
        next_count(draft, words)
    } else {
        Err(Stop::Fault(Fault::Form))
    }
}

/// The count of nodes of a further kind.
fn in_counts(draft: &mut Draft, word: &[u8], words: Words) -> Result<(), Stop>
    requires few_kinds { length draft.old.text.kinds ≤ 4 }
    ensures { Gives (λ _. draft_shown draft.new) result (in_counts (draft_shown draft.old) word.now words.entry) }
{
    if word == b"nodes".as_slice() {
        next_count(draft, words)
    } else {
        Err(Stop::Fault(Fault::Form))
    }
}

/// A node.
fn in_nodes(draft: &mut Draft, alloc: Global, word: &[u8], words: Words) -> Result<(), Stop>
    requires few_owners { length draft.old.owners ≤ 256 }
    ensures { Gives (λ _. draft_shown draft.new) result (in_nodes (draft_shown draft.old) word.now words.entry) }
{
    if word != b"node".as_slice() {
        return Err(Stop::Fault(Fault::Form));
    }
    let node = declarations::node(
        alloc,
        draft.text.fields.items(),
        draft.owners.items(),
        draft.text.nodes.items().len(),
        words,
    )?;
    draft.add_node(node)?;
    Ok(())
}

/// A root, or after at least one the first operation.
fn in_roots(draft: &mut Draft, alloc: Global, word: &[u8], words: Words) -> Result<(), Stop>
    requires few_kinds { length draft.old.text.kinds ≤ 4 }
    requires few_owners { length draft.old.owners ≤ 256 }
    ensures { Gives (λ _. draft_shown draft.new) result (in_roots (draft_shown draft.old) word.now words.entry) }
{
    if word == b"root".as_slice() {
        let root = declarations::root(
            alloc,
            draft.version,
            draft.text.kinds.items(),
            draft.owners.items(),
            draft.text.roots.items(),
            words,
        )?;
        draft.add_root(root)?;
        Ok(())
    } else if word == b"op".as_slice() && !draft.text.roots.items().is_empty() {
        let op = declarations::op(alloc, draft.text.ops.items(), words)?;
        draft.begin_op(op);
        Ok(())
    } else {
        Err(Stop::Fault(Fault::Form))
    }
}

/// `gen`
fn in_begun(draft: &mut Draft, word: &[u8], mut words: Words) -> Result<(), Stop>
    ensures { Gives (λ _. draft_shown draft.new) result (in_begun (draft_shown draft.old) word.now words.entry) }
{
    if word != b"gen".as_slice() {
        return Err(Stop::Fault(Fault::Form));
    }
    words.end()?;
    draft.section = Section::Generator;
    Ok(())
}

/// Whether a method has room for one more instruction, and its operation for one more `new` if it is that.
fn room(draft: &Draft, step: &Step) -> bool
    ensures { result ≡ has_room (draft_shown draft.now) (step_shown step.now) }
{
    if draft.code().len() >= MOST_INSTRS {
        return false;
    }
    match step {
        Step::Whole(Instr::New(..)) => draft.news() < MOST_NEWS,
        _ => true,
    }
}

fn add_step(draft: &mut Draft, alloc: Global, step: Step) -> Result<(), Stop>
    ensures { Gives (λ _. draft_shown draft.new) result (Ok (with_step (draft_shown draft.old) (step_shown step))) }
{
    match step {
        Step::Whole(instr) => draft.add_instr(instr)?,
        Step::Commits(count) => draft.begin_commit(alloc, count)?,
    }
    Ok(())
}

/// An instruction of a method.
fn in_method(draft: &mut Draft, alloc: Global, word: &[u8], words: Words) -> Result<(), Stop>
    requires few_kinds { length draft.old.text.kinds ≤ 4 }
    requires few_fields { length draft.old.text.fields ≤ 16 }
    requires few_roots { length draft.old.text.roots ≤ 256 }
    ensures { Gives (λ _. draft_shown draft.new) result (in_method (draft_shown draft.old) word.now words.entry) }
{
    let step = read_step(
        draft.version,
        draft.text.kinds.items(),
        draft.text.fields.items(),
        draft.text.roots.items(),
        word,
        words,
    )?;
    if room(draft, &step) {
        add_step(draft, alloc, step)
    } else {
        Err(Stop::Fault(Fault::TooMany))
    }
}

/// An instruction, or after at least one `wrap`.
fn in_generator(draft: &mut Draft, alloc: Global, word: &[u8], mut words: Words) -> Result<(), Stop>
    requires few_kinds { length draft.old.text.kinds ≤ 4 }
    requires few_fields { length draft.old.text.fields ≤ 16 }
    requires few_roots { length draft.old.text.roots ≤ 256 }
    ensures { Gives (λ _. draft_shown draft.new) result (in_generator (draft_shown draft.old) word.now words.entry) }
{
    if word == b"wrap".as_slice() && !draft.op.generator.items().is_empty() {
        words.end()?;
        draft.section = Section::WrapUp;
        Ok(())
    } else {
        in_method(draft, alloc, word, words)
    }
}

/// `op NAME A` after a whole operation.
fn next_op(draft: &mut Draft, alloc: Global, words: Words) -> Result<(), Stop>
    ensures { Gives (λ _. draft_shown draft.new) result (next_op (draft_shown draft.old) words.entry) }
{
    draft.end_op(alloc)?;
    let op = declarations::op(alloc, draft.text.ops.items(), words)?;
    draft.begin_op(op);
    Ok(())
}

/// An instruction, or another operation after a whole one.
fn in_wrap_up(draft: &mut Draft, alloc: Global, word: &[u8], words: Words) -> Result<(), Stop>
    requires few_kinds { length draft.old.text.kinds ≤ 4 }
    requires few_fields { length draft.old.text.fields ≤ 16 }
    requires few_roots { length draft.old.text.roots ≤ 256 }
    ensures { Gives (λ _. draft_shown draft.new) result (in_wrap_up (draft_shown draft.old) word.now words.entry) }
{
    if word == b"op".as_slice() {
        next_op(draft, alloc, words)
    } else {
        in_method(draft, alloc, word, words)
    }
}

fn in_section(draft: &mut Draft, alloc: Global, word: &[u8], words: Words) -> Result<(), Stop>
    requires few_kinds { length draft.old.text.kinds ≤ 4 }
    requires few_fields { length draft.old.text.fields ≤ 16 }
    requires few_roots { length draft.old.text.roots ≤ 256 }
    requires few_owners { length draft.old.owners ≤ 256 }
    ensures { Gives (λ _. draft_shown draft.new) result (in_section (draft_shown draft.old).section (draft_shown draft.old) word.now words.entry) }
{
    match draft.section {
        Section::Start => in_start(draft, alloc, word, words),
        Section::Opening => in_opening(draft, alloc, word, words),
        Section::Kinds => in_kinds(draft, alloc, word, words),
        Section::Fields => in_fields(draft, alloc, word, words),
        Section::Counts => in_counts(draft, word, words),
        Section::Nodes => in_nodes(draft, alloc, word, words),
        Section::Roots => in_roots(draft, alloc, word, words),
        Section::Begun => in_begun(draft, word, words),
        Section::Generator => in_generator(draft, alloc, word, words),
        Section::WrapUp => in_wrap_up(draft, alloc, word, words),
        Section::Shipped => Err(Stop::Fault(Fault::Form)),
    }
}

/// An entry of a commit, after which so many lines are left.
fn in_commit(
    draft: &mut Draft,
    alloc: Global,
    left: u8,
    word: &[u8],
    words: Words,
) -> Result<(), Stop>
    requires few_fields { length draft.old.text.fields ≤ 16 }
    requires few_roots { length draft.old.text.roots ≤ 256 }
    ensures { Gives (λ _. draft_shown draft.new) result (in_place (suc left) (draft_shown draft.old) word.now words.entry) }
{
    let entry = read_entry(
        draft.text.fields.items(),
        draft.text.roots.items(),
        word,
        words,
    )?;
    draft.add_entry(alloc, entry, left)?;
    Ok(())
}

/// Adds what a line declares, by its first word and the words after it. If entry lines of a commit must follow, they
/// alone may stand.
pub(crate) fn in_place(
    draft: &mut Draft,
    alloc: Global,
    word: &[u8],
    words: Words,
) -> Result<(), Stop>
    requires few_kinds { length draft.old.text.kinds ≤ 4 }
    requires few_fields { length draft.old.text.fields ≤ 16 }
    requires few_roots { length draft.old.text.roots ≤ 256 }
    requires few_owners { length draft.old.owners ≤ 256 }
    ensures { Gives (λ _. draft_shown draft.new) result (in_place (draft_shown draft.old).left (draft_shown draft.old) word.now words.entry) }
{
    match draft.left.checked_sub(1) {
        Some(left) => in_commit(draft, alloc, left, word, words),
        None => in_section(draft, alloc, word, words),
    }
}
