//! The rules of the normal form.

ghost use Rattle.norm_lang.specs.Limits.{IsWithinLimits};
ghost use Rattle.norm_check.specs.Checked.{IsChecked};

use norm_check::{CheckError, Normal, check};
use norm_lang::text::Text;
use std::alloc::Global;

/// Judges a copy of a text by the rules.
pub fn judge_text(alloc: Global, text: &Text) -> Result<Normal, CheckError>
    requires { IsWithinLimits text.now }
    ensures { IsChecked text.now result }
{
    let copy = text.copy(alloc)?;
    check(alloc, copy)
}
