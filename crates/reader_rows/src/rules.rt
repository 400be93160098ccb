//! The rules that an instruction of a text's operation breaks.

ghost use Rattle.std.specs.Prelude.{◌≡◌, ◌<◌, length, map, Some, slice_get, option_map, IsTrue, IfOk};
ghost use Rattle.std.specs.String.{string_bytes};
ghost use Rattle.norm_lang.specs.Kept.{code_of};
ghost use Rattle.norm_paths.specs.Found.{IsOpWithin, IsSized};
ghost use Rattle.reader_rows.specs.Answers.{with_answer, listed, AreBroken, AreBrokenBy, IsPathAnswer, is_wrong, wrong_at, verdict};

use crate::row::Judge;
use norm_check::ends::has_wrong_end;
use norm_check::kinds::{computes_on_reference, has_wrong_kind};
use norm_check::ranges::has_wrong_range;
use norm_check::retired::has_wrong_retire;
use norm_lang::text::{Instr, Op, Text};
use norm_paths::path_rules::{
    exchanges_kept, follows_kept, has_wrong_put, leaks_fresh, loops_blindly, makes_nodes_again,
    reads_unset, sets_kept, shows_fresh,
};
use norm_paths::{OpFacts, code_of};
use row_spelling::RowError;
use std::alloc::{AllocError, Global};

/// The rules over paths.
const PATH_RULES: [&str; 9] = ["N3", "N4", "N5", "N6", "N7", "N9", "N10", "N11", "N14"];

/// Adds a name to a row of names, if the answer is yes.
fn add_answer(row: &mut String, name: &str, answer: bool) -> Result<(), AllocError>
    ensures { IfOk result (λ _. string_bytes row.new ≡ with_answer (string_bytes row.old) name.now answer) }
{
    if !answer {
        return Ok(());
    }
    if !row.as_str().is_empty() {
        row.push(' ')?;
    }
    row.push_str(name)?;
    Ok(())
}

/// The names with the answer yes, or `none`.
#[tactic(auto, using(crate::proofs::Listed::names_turn, crate::proofs::Listed::names_end))]
pub(crate) fn listed(alloc: Global, names: &[&str], answers: &[bool]) -> Result<String, AllocError>
    requires { length names.now ≡ length answers.now }
    ensures { IfOk result (λ row. string_bytes row ≡ listed (map (λ name. name.now) names.now) answers.now) }
{
    let mut row = String::new(alloc);
    for i in 0..names.len() {
        add_answer(&mut row, names[i], answers[i])?;
    }
    if row.as_str().is_empty() {
        row.push_str("none")?;
    }
    Ok(row)
}

fn is_sized(code: &[Instr]) -> bool
    ensures { IsTrue result → IsSized code.now }
{
    0 < code.len() && code.len() < 256
}

/// Which rules over paths an instruction breaks at its place, by what was found out about its operation.
fn broken_by(
    alloc: Global,
    facts: &OpFacts,
    wrapup: bool,
    at: usize,
    instr: &Instr,
) -> Result<[bool; 9], AllocError>
    ensures { IfOk result (λ broken. AreBrokenBy facts.now wrapup at instr.now broken) }
{
    let method = facts.method(wrapup);
    let kept = &facts.kept;
    let makes_again = makes_nodes_again(alloc, wrapup, at, instr, method)?;
    let blind = loops_blindly(alloc, at, method)?;
    Ok([
        makes_again,
        has_wrong_put(wrapup, at, instr, method),
        shows_fresh(at, instr, method),
        leaks_fresh(at, instr, method, kept),
        blind,
        sets_kept(wrapup, instr, kept),
        follows_kept(wrapup, instr, kept),
        exchanges_kept(wrapup, instr, kept),
        reads_unset(at, instr, method),
    ])
}

/// Which rules over paths an instruction breaks at its place.
fn broken(
    alloc: Global,
    op: &Op,
    wrapup: bool,
    at: usize,
    instr: &Instr,
) -> Result<[bool; 9], AllocError>
    requires generator { IsSized op.now.generator }
    requires wrapup { IsSized op.now.wrapup }
    requires stands { slice_get (code_of op.now wrapup) at ≡ Some instr.now }
    ensures { IfOk result (λ broken. IsOpWithin op.now → AreBroken op.now wrapup at instr.now broken) }
{
    match OpFacts::of_op(alloc, op) {
        Ok(facts) => broken_by(alloc, &facts, wrapup, at, instr),
        Err(error) => Err(error),
    }
}

/// The names of the rules over paths that an instruction breaks at its place.
fn broken_names(
    alloc: Global,
    op: &Op,
    wrapup: bool,
    at: usize,
    instr: &Instr,
) -> Result<String, AllocError>
    requires generator { IsSized op.now.generator }
    requires wrapup { IsSized op.now.wrapup }
    requires stands { slice_get (code_of op.now wrapup) at ≡ Some instr.now }
    ensures { IfOk result (λ answer. IsOpWithin op.now → IsPathAnswer op.now wrapup at (string_bytes answer)) }
{
    let broken = broken(alloc, op, wrapup, at, instr)?;
    listed(alloc, &PATH_RULES, &broken)
}

/// The same of the instruction that stands at a place.
pub(crate) fn path_answer(
    alloc: Global,
    op: &Op,
    wrapup: bool,
    at: usize,
) -> Result<String, RowError>
    ensures { IfOk result (λ answer. IsOpWithin op.now → IsPathAnswer op.now wrapup at (string_bytes answer)) }
{
    match code_of(op, wrapup).get(at) {
        Some(instr) if is_sized(op.generator.items()) && is_sized(op.wrapup.items()) => {
            Ok(broken_names(alloc, op, wrapup, at, instr)?)
        }
        _ => Err(RowError::Wrong),
    }
}

/// Whether the instruction breaks the rule, of those that look at it alone.
fn is_wrong(
    text: &Text,
    judge: Judge,
    wrapup: bool,
    count: usize,
    at: usize,
    instr: &Instr,
) -> Option<bool>
    requires { at < count }
    ensures { result ≡ is_wrong judge text.now wrapup count at instr.now }
{
    let (fields, roots) = (text.fields.items(), text.roots.items());
    match judge {
        Judge::Kind => Some(has_wrong_kind(fields, roots, instr)),
        Judge::Computes => Some(computes_on_reference(instr)),
        Judge::End => Some(has_wrong_end(wrapup, instr, at, count)),
        Judge::Retire => Some(has_wrong_retire(instr)),
        Judge::Range => Some(has_wrong_range(roots, instr, count)),
        Judge::Paths | Judge::Flaws | Judge::CarriedFlaws => None,
    }
}

/// The same of the instruction at a place, if there is one.
fn wrong_at(text: &Text, judge: Judge, code: &[Instr], wrapup: bool, at: usize) -> Option<bool>
    ensures { result ≡ wrong_at judge text.now wrapup code.now at (slice_get code.now at) }
{
    match code.get(at) {
        Some(instr) => is_wrong(text, judge, wrapup, code.len(), at, instr),
        None => None,
    }
}

/// Whether the instruction at a place is wrong by a rule that looks at it alone, or right.
pub(crate) fn rule_answer(
    alloc: Global,
    text: &Text,
    judge: Judge,
    op: &Op,
    wrapup: bool,
    at: usize,
) -> Result<String, RowError>
    ensures { IfOk result (λ answer. option_map verdict (wrong_at judge text.now wrapup (code_of op.now wrapup) at (slice_get (code_of op.now wrapup) at)) ≡ Some (string_bytes answer)) }
{
    match wrong_at(text, judge, code_of(op, wrapup), wrapup, at) {
        None => Err(RowError::Wrong),
        Some(true) => Ok(String::from_str(alloc, "wrong")?),
        Some(false) => Ok(String::from_str(alloc, "right")?),
    }
}
