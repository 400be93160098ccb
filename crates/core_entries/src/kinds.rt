//! The kinds of access that turns count.

ghost use Rattle.std.specs.Prelude.{◌≡◌};
ghost use Rattle.caller_parts.specs.Codes.{shown_at};
ghost use Rattle.oa_words.specs.Words.{field_base, head_base};
ghost use Rattle.caller_steps.specs.Belongs.{is_check_at};
ghost use Rattle.core_entries.specs.Kinds.{kind_at, kind_between};

use caller_steps::{Setting, Step};
use phase_pools::access::Access;
use schedule_turns::StepKind;

pub(crate) fn is_check(instr: Option<Step>) -> bool
    ensures { result ≡ is_check_at (shown_at instr.entry) }
{
    matches!(instr, Some(Step::Check))
}

/// The address of the first field. From there on fields and cells stand, up to the pool's first head.
pub(crate) fn first_field(setting: &Setting) -> u32
    ensures { result ≡ field_base setting.now.sizes }
{
    let shape = setting.shape();
    shape.kept();
    shape.field_at(0, 0)
}

/// The address of the first head of the pool: the word right after the last cell, so that fields and cells stand below it.
pub(crate) fn pool_head(setting: &Setting) -> u32
    ensures { result ≡ head_base setting.now.sizes }
{
    let shape = setting.shape();
    shape.kept();
    shape.head_at(0)
}

fn kind_between(first: u32, head: u32, at: u32, kind: StepKind) -> Option<StepKind>
    ensures { result ≡ kind_between first head at kind }
{
    if first <= at && at < head {
        Some(kind)
    } else {
        None
    }
}

/// The kind of an access: a load or an exchange of a field or a cell.
pub(crate) fn kind_at(first: u32, head: u32, access: Access) -> Option<StepKind>
    ensures { result ≡ kind_at first head access }
{
    match access {
        Access::Load { at } => kind_between(first, head, at, StepKind::Load),
        Access::CompareExchange { at, .. } => kind_between(first, head, at, StepKind::Exchange),
        Access::Store { .. } | Access::FetchMax { .. } => None,
    }
}
