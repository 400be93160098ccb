//! Texts that are run as they are under epochs, and the rows of words for their callers.

ghost use Rattle.std.specs.Prelude.{◌≡◌, ◌<◌, ◌^◌, length, IsTrue, IfSome};
ghost use Rattle.norm_lang.specs.Limits.{IsWithinLimits};
ghost use Rattle.target_code.specs.Bare.{bare};
ghost use Rattle.caller_parts.specs.KindCounts.{greatest_count};
ghost use Rattle.caller_parts.specs.Settings.{Fits, IsSetting};
ghost use Rattle.core_ground.specs.Running.{bare_pair, MayRun};

use caller_parts::Reclamation;
use caller_parts::counts::{greatest_of, kind_nodes};
use core_ground::Runs;
use epoch_core::setting::{copy_of, setting_of};
use norm_check::{Normal, check};
use norm_lang::Text;
use norm_parser::parse;
use oa_core::Setting;
use oa_words::shape::Shape;
use row_spelling::{RowError, few};
use std::alloc::Global;
use std::marker::Model;

fn normal_of(alloc: Global, text: Text) -> Result<Normal, RowError>
    requires { IsWithinLimits text }
{
    match check(alloc, text) {
        Ok(normal) => Ok(normal),
        Err(_) => Err(RowError::Wrong),
    }
}

/// The text in normal form that bytes spell.
pub(crate) fn text_in(alloc: Global, bytes: &[u8]) -> Result<Normal, RowError> {
    if !few(bytes) {
        return Err(RowError::Wrong);
    }
    match parse(alloc, bytes) {
        Ok(text) => normal_of(alloc, text),
        Err(_) => Err(RowError::Wrong),
    }
}

/// A text in normal form, and the row of words on which callers run it as it is: its shape and its last phase. Phases begin at 1.
/// It is seen as the text and the setting.
#[derive(Drop)]
pub(crate) struct BareRow<'a> {
    pub(crate) normal: &'a Normal,
    pub(crate) shape: Shape,
    pub(crate) last: u64,
}

impl<'a> Model for BareRow<'a> {
    ghost use Rattle.std.specs.Prelude.{◌≤◌};
    ghost use Rattle.norm_lang.specs.declared.text.Text.{Text};
    ghost use Rattle.target_code.specs.Bare.{bare};
    ghost use Rattle.caller_parts.specs.Settings.{Setting as Told, Fits, IsSetting};
    ghost use Rattle.caller_parts.specs.declared.limits.TheConstants.{MOST_PHASES};
    ghost use Rattle.epoch_core.specs.Settings.{entry_setting};

    ghost Value = { Text × Told };

    ghost view = { λ r. (r.normal.now, entry_setting r.normal.now r.shape r.last) };

    ghost invariant = { λ r.
        IsSetting (entry_setting r.normal.now r.shape r.last)
        × (r.last ≤ MOST_PHASES)
        × Fits (bare r.normal.now) (entry_setting r.normal.now r.shape r.last) };
}

impl<'a> BareRow<'a> {
    /// What every one keeps: a law for those who hold one.
    pub(crate) fn kept(&self)
        ensures setting { IsSetting self.now.1 }
        ensures fits { Fits (bare self.now.0) self.now.1 }
        ensures may { MayRun (bare_pair self.now.0) }
    {
        Runs::Bare(self.normal).kept();
    }

    /// The setting.
    pub(crate) fn setting(&self) -> Setting
        ensures { result ≡ self.now.1 }
    {
        setting_of(self.normal, copy_of(&self.shape), 1, self.last)
    }
}

/// A text has no more than four kinds and 256 initial nodes.
fn is_small(text: &Text) -> bool
    ensures { IsTrue result → (length text.now.kinds < 256) × (length text.now.nodes < 2 ^ 32) }
{
    text.kinds.items().len() <= 4 && text.nodes.items().len() <= 256
}

/// Whether a shape has the kinds, fields and cells that a text needs.
fn suits(text: &Text, shape: &Shape) -> bool
    requires { length text.now.kinds < 256 }
    ensures { IsTrue result → (length shape.now.kinds ≡ length text.now.kinds) × (shape.now.fields ≡ greatest_count (bare text.now)) × (shape.now.cells ≡ length text.now.roots) }
{
    shape.kinds() as usize == text.kinds.items().len()
        && shape.fields() as usize
            == greatest_of(text.fields.items(), text.kinds.items().len() as u8)
        && shape.cells() as usize == text.roots.items().len()
}

/// The row of a shape that suits the text, if it has slots for the initial nodes, and the last phase is one.
fn row_of<'a>(normal: &'a Normal, shape: Shape, last: u64) -> Option<BareRow<'a>>
    requires nodes { length normal.now.nodes < 2 ^ 32 }
    requires suits { (length shape.kinds ≡ length normal.now.kinds) × (shape.fields ≡ greatest_count (bare normal.now)) × (shape.cells ≡ length normal.now.roots) }
    ensures { IfSome result (λ row. row.0 ≡ normal.now) }
{
    let nodes = kind_nodes(normal.text().nodes.items());
    match Setting::of(Reclamation::Epochs, copy_of(&shape), 1, last, nodes) {
        Ok(setting) => {
            setting.kept();
            setting.limits();
            Some(BareRow {
                normal,
                shape,
                last,
            })
        }
        Err(_) => None,
    }
}

/// The shape of a row for a text, with so many callers, and so many slots for each kind.
fn shape_for(text: &Text, callers: u64, slots: u64) -> Option<Shape>
    requires { length text.now.kinds < 256 }
{
    let kinds = text.kinds.items().len();
    let fields = greatest_of(text.fields.items(), kinds as u8) as u64;
    let roots = text.roots.items().len() as u64;
    Shape::of_kinds(callers, [slots; 4], kinds as u64, fields, roots).ok()
}

/// A row for so many callers, and so many slots for each kind, with a last phase.
pub(crate) fn row_for<'a>(
    normal: &'a Normal,
    callers: u64,
    slots: u64,
    last: u64,
) -> Option<BareRow<'a>>
    ensures { IfSome result (λ row. row.0 ≡ normal.now) }
{
    let text = normal.text();
    if !is_small(text) {
        return None;
    }
    let shape = shape_for(text, callers, slots)?;
    if suits(text, &shape) {
        row_of(normal, shape, last)
    } else {
        None
    }
}
