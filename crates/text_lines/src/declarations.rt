//! The lines before an operation's instructions, each after its first word: what it declares, or its first fault. Each
//! reads the line's form first, and then judges its numbers, the names it uses, the name it declares, and the limits.
//!
//! Under `# Errors` each lists the faults that its line may have, in the order in which it judges them, and answers the
//! first that the line has: `Form` if the words are others, `Number` if a number exceeds 2^64 - 1, `UnknownName` if a kind
//! or an initial node isn't declared, `Repeated` if the name is declared already, `TooMany` if a limit that its first line
//! tells is passed, `Mismatch` if an initial node is of another kind than its place.

ghost use Rattle.std.specs.Prelude.{◌≡◌, ◌+◌, ◌≤◌, length, get_or, map, IfOk};
ghost use Rattle.std.specs.List.{list_any};
ghost use Rattle.norm_lang.specs.Bounds.{most_nodes};
ghost use Rattle.norm_lang.specs.LineWords.{is_great, up_to};
ghost use Rattle.norm_lang.specs.KindFields.{fields_of};
ghost use Rattle.norm_lang.specs.Declarations.{has_field, has_root, has_op, has_kind, version_in, version_line, kind_line, groups_begun, may_follow, field_line, is_next, nodes_line, values_at, starts_of, are_matches, node_line, root_line, op_line, shipped_line, set_line, use_line};
ghost use Rattle.norm_lang.specs.Shipped.{set_text, queue_text};
ghost use Rattle.line_words.specs.Answered.{Reads, Gives};
ghost use Rattle.line_words.specs.Shown.{start_shown};

use line_words::fault::{Fault, Stop};
use line_words::operands::known;
use line_words::words::{
    StartWord, Words, fits, great, is_reserved, kind_of_holding, spelled_kind, start_of, up_to,
    value_of,
};
use norm_lang::fields::count_of;
use norm_lang::limits::{
    MOST_ARGUMENTS, MOST_BUCKETS, MOST_FIELDS, MOST_KINDS, MOST_NODES, MOST_OPS, MOST_ROOTS,
};
use norm_lang::list::Listed;
use norm_lang::text::{FieldDecl, Name, NodeDecl, Op, RootDecl, Start, Starts, Text, Version};
use norm_lang::{shipped_queue, shipped_set};
use std::alloc::Global;

fn named_field(fields: &[FieldDecl], name: &[u8]) -> bool
    ensures { result ≡ has_field fields.now name.now }
{
    fields.iter().any(|field| field.name.items() == name)
}

fn named_root(roots: &[RootDecl], name: &[u8]) -> bool
    ensures { result ≡ has_root roots.now name.now }
{
    roots.iter().any(|root| root.name.items() == name)
}

fn named_op(ops: &[Op], name: &[u8]) -> bool
    ensures { result ≡ has_op ops.now name.now }
{
    ops.iter().any(|op| op.name.items() == name)
}

fn named_kind(kinds: &[Name], name: &[u8]) -> bool
    ensures { result ≡ has_kind kinds.now name.now }
{
    kinds.iter().any(|kind| kind.items() == name)
}

/// `1` or `2`
fn version_in(word: &[u8]) -> Result<Version, Fault>
    ensures { Reads (λ version. version) result (version_in word.now) }
{
    if word == b"1".as_slice() {
        Ok(Version::First)
    } else if word == b"2".as_slice() {
        Ok(Version::Second)
    } else {
        Err(Fault::Form)
    }
}

/// `oa 1` or `oa 2`
///
/// # Errors
///
/// `Form` if the words are others.
pub fn version(mut words: Words) -> Result<Version, Fault>
    ensures { Reads (λ version. version) result (version_line words.entry) }
{
    let version = version_in(words.word()?)?;
    words.end()?;
    Ok(version)
}

/// `kind NAME`: at most 4 kinds, each with a name of its own.
///
/// # Errors
///
/// `Form`, `Repeated`, `TooMany`; `Memory` if memory runs out.
pub fn kind(alloc: Global, kinds: &[Name], mut words: Words) -> Result<Name, Stop>
    ensures { Gives (λ name. name) result (kind_line kinds.now words.entry) }
{
    let name = words.name()?;
    words.end()?;
    if named_kind(kinds, name) {
        return Err(Stop::Fault(Fault::Repeated));
    }
    if kinds.len() >= MOST_KINDS {
        return Err(Stop::Fault(Fault::TooMany));
    }
    Ok(Listed::from_slice(alloc, name)?)
}

/// How many kinds have a field, if the fields stand in the order of their kinds.
#[tactic(auto, using(crate::proofs::Groups::begun_more, crate::proofs::Groups::begun_done))]
pub fn groups_begun(fields: &[FieldDecl]) -> usize
    ensures { result ≡ groups_begun fields.now }
{
    let mut begun = 0;
    for field in fields {
        begun = begun.max(field.owner as usize + 1);
    }
    begun
}

/// Whether a field of this kind goes on with the kind begun last, or begins the next one. It is also true if its kind isn't
/// declared, since the line's fault is then that, and not its place.
fn may_follow(begun: usize, owner: Option<u8>) -> bool
    ensures { result ≡ may_follow begun owner }
{
    match owner {
        None => true,
        Some(owner) => owner as usize + 1 == begun || owner as usize == begun,
    }
}

/// `field KIND NAME num` or `field KIND NAME ref KIND`: at most 4 fields of a kind, in the order of the kinds, each with a
/// name of its own. A line of the first version names no kind.
///
/// # Errors
///
/// `Form`, also if the field's kind is declared and is neither the one begun last nor the next; `UnknownName`, `Repeated`,
/// `TooMany`; `Memory` if memory runs out.
pub fn field(
    alloc: Global,
    version: Version,
    kinds: &[Name],
    fields: &[FieldDecl],
    mut words: Words,
) -> Result<FieldDecl, Stop>
    requires few_kinds { length kinds.now ≤ 4 }
    ensures { Gives (λ field. field) result (field_line version kinds.now fields.now words.entry) }
{
    let owner = words.owner(version, kinds)?;
    let name = words.name()?;
    let holding = words.holding(version, kinds)?;
    words.end()?;
    if !may_follow(groups_begun(fields), owner) {
        return Err(Stop::Fault(Fault::Form));
    }
    let owner = known(owner)?;
    let kind = kind_of_holding(holding)?;
    if named_field(fields, name) {
        return Err(Stop::Fault(Fault::Repeated));
    }
    if count_of(fields, owner) >= MOST_FIELDS {
        return Err(Stop::Fault(Fault::TooMany));
    }
    let name = Listed::from_slice(alloc, name)?;
    Ok(FieldDecl { owner, name, kind })
}

/// Whether it is the turn of this kind. It is also true if the kind isn't declared, since the line's fault is then that, and not
/// its place.
fn next(turn: u8, owner: Option<u8>) -> bool
    ensures { result ≡ is_next turn owner }
{
    match owner {
        None => true,
        Some(owner) => owner == turn,
    }
}

/// So many nodes and as many more: at most 256.
fn sum_of_nodes(promised: usize, count: u64) -> Result<u64, Fault>
    ensures sum { Reads (λ sum. sum) result (up_to most_nodes (promised + count)) }
    ensures few { IfOk result (λ _. count ≤ 256) }
{
    let promised = promised as u64;
    if promised <= MOST_NODES && count <= MOST_NODES - promised {
        Ok(promised + count)
    } else {
        Err(Fault::TooMany)
    }
}

/// `nodes KIND K`, for each kind in its turn: the count of its initial nodes, at most 256 with those promised
/// already. A line of the first version names no kind.
///
/// # Errors
///
/// `Form`, also if the kind is declared and it isn't its turn; `Number`, `UnknownName`, `TooMany`.
pub fn nodes(
    version: Version,
    kinds: &[Name],
    turn: u8,
    promised: usize,
    mut words: Words,
) -> Result<u32, Fault>
    requires few_kinds { length kinds.now ≤ 4 }
    ensures { Reads (λ count. count) result (nodes_line version kinds.now turn promised words.entry) }
{
    let owner = words.owner(version, kinds)?;
    let count = words.number()?;
    words.end()?;
    if !next(turn, owner) {
        return Err(Fault::Form);
    }
    let count = value_of(count)?;
    known(owner)?;
    sum_of_nodes(promised, count)?;
    Ok(count as u32)
}

/// One value for each field of a kind, and then the end.
#[tactic(auto, using(crate::proofs::NodeLines::value_more, crate::proofs::NodeLines::value_passed, crate::proofs::NodeLines::value_stopped, crate::proofs::NodeLines::values_done, crate::proofs::NodeLines::values_stopped))]
fn values(
    alloc: Global,
    owner: u8,
    fields: &[FieldDecl],
    mut words: Words,
) -> Result<Listed<StartWord>, Stop>
    ensures { Gives (λ values. map start_shown values) result (values_at (fields_of owner fields.now) words.entry) }
{
    let mut values = Listed::empty(alloc);
    for field in fields {
        if field.owner == owner {
            values.push(words.start(field.kind)?)?;
        }
    }
    words.end()?;
    Ok(values)
}

/// Whether a value is a number that exceeds 2^64 - 1.
fn any_great(values: &[StartWord]) -> bool
    ensures { result ≡ list_any (λ value. is_great (start_shown value)) values.now }
{
    values.iter().any(|value| great(*value))
}

/// The first values that words say, with so many initial nodes.
#[tactic(auto, using(crate::proofs::NodeLines::start_more, crate::proofs::NodeLines::start_stopped, crate::proofs::NodeLines::starts_done))]
fn starts(alloc: Global, count: u32, values: &[StartWord]) -> Result<Starts, Stop>
    ensures { Gives (λ starts. starts) result (starts_of count (map start_shown values.now)) }
{
    let mut starts = Listed::empty(alloc);
    for value in values {
        starts.push(start_of(count, *value)?)?;
    }
    Ok(starts)
}

/// Whether each value fits its field of a kind: `owners` are the kinds of the initial nodes.
#[tactic(auto, using(crate::proofs::NodeLines::fit_passed, crate::proofs::NodeLines::fit_more, crate::proofs::NodeLines::fit_refused, crate::proofs::NodeLines::fit_ended, crate::proofs::NodeLines::fits_done))]
fn all_fit(owners: &[u8], owner: u8, fields: &[FieldDecl], starts: &[Start]) -> bool
    ensures { result ≡ are_matches owners.now (fields_of owner fields.now) starts.now }
{
    let mut left = starts;
    for field in fields {
        if field.owner == owner {
            match left.split_first() {
                None => return true,
                Some((start, rest)) => {
                    if !fits(owners, field.kind, *start) {
                        return false;
                    }
                    left = rest;
                }
            }
        }
    }
    true
}

/// The kind of the initial node at a place among nodes of these kinds.
fn owner_of(owners: &[u8], at: usize) -> u8
    ensures { result ≡ get_or owners.now at 0 }
{
    match owners.get(at) {
        None => 0,
        Some(owner) => *owner,
    }
}

/// `node V V ..`, one value for each field of the node's kind, for the initial node at a place among nodes of these kinds.
///
/// # Errors
///
/// `Form`, `Number`, `UnknownName`, `Mismatch`; `Memory` if memory runs out.
#[tactic(auto, using(crate::proofs::NodeLines::any_shown))]
pub fn node(
    alloc: Global,
    fields: &[FieldDecl],
    owners: &[u8],
    at: usize,
    words: Words,
) -> Result<NodeDecl, Stop>
    requires few_owners { length owners.now ≤ 256 }
    ensures { Gives (λ node. node) result (node_line fields.now owners.now at words.entry) }
{
    let owner = owner_of(owners, at);
    let values = values(alloc, owner, fields, words)?;
    if any_great(values.items()) {
        return Err(Stop::Fault(Fault::Number));
    }
    let values = starts(alloc, owners.len() as u32, values.items())?;
    if !all_fit(owners, owner, fields, values.items()) {
        return Err(Stop::Fault(Fault::Mismatch));
    }
    Ok(NodeDecl { owner, values })
}

/// `root NAME num V`, `root NAME ref KIND null` or `root NAME ref KIND @J`: at most 256 roots, each with a name of
/// its own. `owners` are the kinds of the initial nodes. A line of the first version names no kind.
///
/// # Errors
///
/// `Form`, `Number`, `UnknownName`, `Repeated`, `TooMany`, `Mismatch`; `Memory` if memory runs out.
pub fn root(
    alloc: Global,
    version: Version,
    kinds: &[Name],
    owners: &[u8],
    roots: &[RootDecl],
    mut words: Words,
) -> Result<RootDecl, Stop>
    requires few_kinds { length kinds.now ≤ 4 }
    requires few_owners { length owners.now ≤ 256 }
    ensures { Gives (λ root. root) result (root_line version kinds.now owners.now roots.now words.entry) }
{
    let name = words.name()?;
    let holding = words.holding(version, kinds)?;
    let value = words.start(spelled_kind(holding))?;
    words.end()?;
    let start = start_of(owners.len() as u32, value)?;
    let kind = kind_of_holding(holding)?;
    if named_root(roots, name) {
        return Err(Stop::Fault(Fault::Repeated));
    }
    if roots.len() >= MOST_ROOTS {
        return Err(Stop::Fault(Fault::TooMany));
    }
    if !fits(owners, kind, start) {
        return Err(Stop::Fault(Fault::Mismatch));
    }
    let name = Listed::from_slice(alloc, name)?;
    Ok(RootDecl { name, kind, start })
}

/// `op NAME A`: at most 16 operations, each with a name of its own, and at most 4 arguments. It has no code yet.
///
/// # Errors
///
/// `Form`, also if the name is `script` or `schedule`; `Number`, `Repeated`, `TooMany`; `Memory` if memory runs out.
pub fn op(alloc: Global, ops: &[Op], mut words: Words) -> Result<Op, Stop>
    ensures { Gives (λ op. op) result (op_line ops.now words.entry) }
{
    let name = words.name()?;
    let args = words.number()?;
    words.end()?;
    if is_reserved(name) {
        return Err(Stop::Fault(Fault::Form));
    }
    let args = value_of(args)?;
    if named_op(ops, name) {
        return Err(Stop::Fault(Fault::Repeated));
    }
    if ops.len() >= MOST_OPS {
        return Err(Stop::Fault(Fault::TooMany));
    }
    let args = up_to(MOST_ARGUMENTS, args)?;
    Ok(Op {
        name: Listed::from_slice(alloc, name)?,
        args: args as u8,
        generator: Listed::empty(alloc),
        wrapup: Listed::empty(alloc),
    })
}

/// `use list`, after the second word.
fn list(alloc: Global, mut words: Words) -> Result<Text, Stop>
    ensures { Gives (λ text. text) result (shipped_line (set_text 1) words.entry) }
{
    words.end()?;
    Ok(shipped_set(alloc, 1)?)
}

/// `use queue`, after the second word.
fn queue(alloc: Global, mut words: Words) -> Result<Text, Stop>
    ensures { Gives (λ text. text) result (shipped_line queue_text words.entry) }
{
    words.end()?;
    Ok(shipped_queue(alloc)?)
}

/// `B` of `use set B`: 1 to 64.
fn buckets(mut words: Words) -> Result<u32, Fault>
    ensures some { IfOk result (λ b. 1 ≤ b) }
    ensures most { IfOk result (λ b. b ≤ 64) }
    ensures text { Reads (λ b. set_text b) result (set_line words.entry) }
{
    let count = words.number()?;
    words.end()?;
    let count = value_of(count)?;
    if count == 0 {
        return Err(Fault::TooMany);
    }
    Ok(up_to(MOST_BUCKETS, count)? as u32)
}

/// `use set B`, after the second word.
fn set(alloc: Global, words: Words) -> Result<Text, Stop>
    ensures { Gives (λ text. text) result (set_line words.entry) }
{
    let buckets = buckets(words)?;
    Ok(shipped_set(alloc, buckets)?)
}

/// `use list`, `use set B` or `use queue`: a shipped text.
///
/// # Errors
///
/// `Form`, `Number`, `TooMany` if B isn't 1 to 64; `Memory` if memory runs out.
pub fn shipped(alloc: Global, mut words: Words) -> Result<Text, Stop>
    ensures { Gives (λ text. text) result (use_line words.entry) }
{
    let word = words.word()?;
    if word == b"list".as_slice() {
        list(alloc, words)
    } else if word == b"set".as_slice() {
        set(alloc, words)
    } else if word == b"queue".as_slice() {
        queue(alloc, words)
    } else {
        Err(Stop::Fault(Fault::Form))
    }
}
