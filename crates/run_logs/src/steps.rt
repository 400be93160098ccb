//! One step of a caller, written down.

ghost use Rattle.std.specs.Prelude.{◌≡◌, false, OnOk, OnErr};
ghost use Rattle.source_machine.specs.Calls.{IsOfSourceRun};
ghost use Rattle.caller_steps.specs.Entries.{is_idle};
ghost use Rattle.core_entries.specs.Callers.{BelongsTo};
ghost use Rattle.core_entries.specs.Steps.{WordsSound, StepIs};
ghost use Rattle.core_entries.specs.StepSigns.{signs_told};
ghost use Rattle.run_logs.specs.Logged.{logged_all, IsCutShort};

use crate::log::Log;
use barrier_check::Barred;
use caller_steps::{Program, Setting};
use core_entries::Entry;
use core_entries::telling::step_told;
use core_ground::PlainWords;
use norm_check::Normal;
use std::alloc::{AllocError, Global};

/// A step of a caller that runs: it makes the access that it wants, and goes on with the word found; and what it tells the source
/// machine is written down. The program was made once for many steps.
///
/// # Errors
/// Memory ran out. The step is made then, and only its first signs are written, or none.
pub fn step_written(
    alloc: Global,
    normal: &Normal,
    entry: &mut Entry,
    words: &mut PlainWords,
    log: &mut Log,
    barred: &Barred,
    program: &Program,
    setting: &Setting,
) -> Result<(), AllocError>
    requires program { program.now ≡ barred.now.target }
    requires belongs { BelongsTo barred.now setting.now entry.old.core }
    requires runs { is_idle entry.old.core.routine ≡ false }
    requires lawful { WordsSound barred.now.target setting.now words.old }
    requires source { IsOfSourceRun normal.now log.old.machine }
    ensures step { StepIs barred.now.target setting.now words.old words.new entry.old entry.new }
    ensures belongs { BelongsTo barred.now setting.now entry.new.core }
    ensures lawful { WordsSound barred.now.target setting.now words.new }
    ensures source { IsOfSourceRun normal.now log.new.machine }
    ensures written { OnOk result (log.new ≡ logged_all normal.now entry.old.core.number entry.old.core.running.call (signs_told barred.now.target setting.now words.old entry.old.core) log.old) }
    ensures cut { OnErr result (IsCutShort normal.now entry.old.core.number entry.old.core.running.call (signs_told barred.now.target setting.now words.old entry.old.core) log.old log.new) }
{
    let caller = entry.number();
    let call = entry.call();
    let signs = step_told(entry, words, barred, program, setting);
    log.write_all(alloc, normal, caller, call, signs.items())
}
