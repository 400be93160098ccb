//! Barred targets of texts, and settings that fit them.

ghost use Rattle.std.specs.Prelude.{◌≡◌, ◌<◌, ◌^◌, length, IsTrue, IfOk};
ghost use Rattle.norm_lang.specs.Limits.{IsWithinLimits};
ghost use Rattle.caller_parts.specs.Settings.{Fits};

use barrier_check::{Barred, verify};
use barrier_compiler::compile;
use caller_parts::counts::{greatest_of, kind_nodes};
use norm_check::{Normal, check};
use norm_lang::Text;
use norm_parser::parse;
use oa_core::Setting;
use oa_words::shape::Shape;
use row_spelling::{RowError, few};
use std::alloc::Global;
use target_code::Target;

fn barred_of_normal(alloc: Global, normal: &Normal) -> Result<Barred, RowError> {
    let target = compile(alloc, normal)?;
    match verify(alloc, target, normal) {
        Ok(barred) => Ok(barred),
        Err(_) => Err(RowError::Wrong),
    }
}

fn barred_of(alloc: Global, text: Text) -> Result<Barred, RowError>
    requires { IsWithinLimits text }
{
    match check(alloc, text) {
        Ok(normal) => barred_of_normal(alloc, &normal),
        Err(_) => Err(RowError::Wrong),
    }
}

/// What the text that bytes spell compiles to.
pub(crate) fn read(alloc: Global, bytes: &[u8]) -> Result<Barred, RowError> {
    if !few(bytes) {
        return Err(RowError::Wrong);
    }
    match parse(alloc, bytes) {
        Ok(text) => barred_of(alloc, text),
        Err(_) => Err(RowError::Wrong),
    }
}

/// A target has no more than four kinds and 256 initial nodes.
fn is_small(target: &Target) -> bool
    ensures { IsTrue result → (length target.now.kinds < 256) × (length target.now.nodes < 2 ^ 32) }
{
    target.kinds.items().len() <= 4 && target.nodes.items().len() <= 256
}

fn same_counts(nodes: [u32; 4], others: [u32; 4]) -> bool
    ensures { IsTrue result → nodes ≡ others }
{
    nodes == others
}

fn suits(target: &Target, setting: &Setting) -> bool
    requires kinds { length target.now.kinds < 256 }
    requires nodes { length target.now.nodes < 2 ^ 32 }
    ensures { IsTrue result → Fits target.now setting.now }
{
    let shape = setting.shape();
    shape.kinds() as usize == target.kinds.items().len()
        && shape.fields() as usize
            == greatest_of(target.fields.items(), target.kinds.items().len() as u8)
        && shape.cells() as usize == target.roots.items().len()
        && same_counts(setting.nodes(), kind_nodes(target.nodes.items()))
}

fn fits(barred: &Barred, setting: &Setting) -> bool
    ensures { IsTrue result → Fits barred.now.target setting.now }
{
    let target = barred.target();
    is_small(target) && suits(target, setting)
}

/// A setting with so many slots for each kind.
fn made_for(target: &Target, numbers: &[u64]) -> Option<Setting>
    requires kinds { length target.now.kinds < 256 }
    requires nodes { length target.now.nodes < 2 ^ 32 }
{
    let ([callers, slots, first, last] | [callers, slots, first, last, _]) = numbers else {
        return None;
    };
    let kinds = target.kinds.items().len();
    let fields = greatest_of(target.fields.items(), kinds as u8) as u64;
    let roots = target.roots.items().len() as u64;
    let shape = Shape::of_kinds(*callers, [*slots; 4], kinds as u64, fields, roots).ok()?;
    Setting::new(shape, *first, *last, kind_nodes(target.nodes.items())).ok()
}

fn made(barred: &Barred, numbers: &[u64]) -> Option<Setting> {
    let target = barred.target();
    if is_small(target) {
        made_for(target, numbers)
    } else {
        None
    }
}

/// A setting for so many callers, and so many slots for each kind, with these first and last phases. For how many replies the
/// callers have room may come after these numbers.
pub(crate) fn setting_for(barred: &Barred, numbers: &[u64]) -> Result<Setting, RowError>
    ensures { IfOk result (λ setting. Fits barred.now.target setting) }
{
    match made(barred, numbers) {
        Some(setting) => {
            if fits(barred, &setting) {
                Ok(setting)
            } else {
                Err(RowError::Wrong)
            }
        }
        None => Err(RowError::Wrong),
    }
}
