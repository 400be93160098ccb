//! The entries with which a replay starts.

ghost use Rattle.std.specs.Prelude.{◌≡◌, ◌≤◌, ◌<◌, ◌++◌, ◌∷◌, [], IfOk, OnOk, All, length};
ghost use Rattle.replay_steps.specs.Entries.{IsShort, fresh_entry, fresh_entries};

use caller_steps::Call;
use core_entries::Entry;
use norm_lang::list::Listed;
use std::alloc::{AllocError, Global};

/// An idle entry with room for a script's replies.
fn add_entry(
    alloc: Global,
    entries: &mut Vec<Entry>,
    number: u32,
    script: &Listed<Call>,
) -> Result<(), AllocError>
    requires number { number < 8 }
    requires short { IsShort script.now }
    ensures { OnOk result (entries.new.items ≡ entries.old.items ++ fresh_entry number script.now ∷ []) }
{
    let entry = Entry::new(alloc, number, script.items().len() as u32)?;
    entries.push(entry)?;
    Ok(())
}

/// An idle entry for each script, after those that stand there.
fn add_entries(
    alloc: Global,
    entries: &mut Vec<Entry>,
    scripts: &[Listed<Call>],
) -> Result<(), AllocError>
    requires count { length scripts.now ≤ 8 }
    requires few { All IsShort scripts.now }
    ensures { OnOk result (entries.new.items ≡ entries.old.items ++ fresh_entries 0 scripts.now) }
{
    let mut number = 0;
    for script in scripts {
        add_entry(alloc, entries, number, script)?;
        number += 1;
    }
    Ok(())
}

/// An idle entry for each script, with room for its replies.
///
/// # Errors
/// Memory ran out.
pub fn put_entries(alloc: Global, scripts: &[Listed<Call>]) -> Result<Vec<Entry>, AllocError>
    requires count { length scripts.now ≤ 8 }
    requires few { All IsShort scripts.now }
    ensures { IfOk result (λ entries. entries.items ≡ fresh_entries 0 scripts.now) }
{
    let mut entries = Vec::new(alloc);
    match add_entries(alloc, &mut entries, scripts) {
        Err(error) => Err(error),
        Ok(()) => Ok(entries),
    }
}
