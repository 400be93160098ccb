//! One step of one caller on words in a vector, and what it tells the source machine.

ghost use Rattle.std.specs.Prelude.{◌≡◌, true, false, Some, ◌&&◌};
ghost use Rattle.caller_parts.specs.Codes.{code_shown, shown_at};
ghost use Rattle.caller_parts.specs.declared.routine.Routine.TheVariants.{At};
ghost use Rattle.caller_parts.specs.declared.setting.Reclamation.TheVariants.{Optimistic};
ghost use Rattle.caller_steps.specs.Entries.{is_idle, code_in, instr_in};
ghost use Rattle.target_code.specs.declared.target.TargetInstr.TheVariants.{Check};
ghost use Rattle.core_entries.specs.Callers.{BelongsTo};
ghost use Rattle.core_entries.specs.Steps.{WordsSound, StepIs};
ghost use Rattle.core_entries.specs.StepRuns.{check_named, signs_of};
ghost use Rattle.core_entries.specs.StepSigns.{signs_told};
ghost use Rattle.core_entries.specs.Told.{is_load_at, told_by};

use crate::entry::Entry;
use crate::signs::{Sign, Signs, check_named};
use crate::step::{signs_next, step_on, step_with};
use barrier_check::Barred;
use caller_steps::{Code, Program, Reclamation, Setting, Step};
use core_ground::PlainWords;
use norm_lang::text::Instr;

/// A step of a caller that runs, as `step_on` makes it, and what it tells. At a load and at a check of optimistic access, an end to
/// which local code comes is known by where the caller stands afterwards, so that no local code runs twice.
#[inline(always)]
pub fn step_told(
    entry: &mut Entry,
    words: &mut PlainWords,
    barred: &Barred,
    program: &Program,
    setting: &Setting,
) -> Signs
    requires program { program.now ≡ barred.now.target }
    requires belongs { BelongsTo barred.now setting.now entry.old.core }
    requires runs { is_idle entry.old.core.routine ≡ false }
    requires lawful { WordsSound barred.now.target setting.now words.old }
    ensures step { StepIs barred.now.target setting.now words.old words.new entry.old entry.new }
    ensures belongs { BelongsTo barred.now setting.now entry.new.core }
    ensures lawful { WordsSound barred.now.target setting.now words.new }
    ensures told { result ≡ signs_told barred.now.target setting.now words.old entry.old.core }
{
    match (setting.reclamation(), entry.code_at(program)) {
        (Reclamation::Optimistic, Some(code)) => {
            told_at(entry, words, barred, program, setting, code)
        }
        _ => told_first(entry, words, barred, program, setting),
    }
}

/// What a step tells is found before it is made.
#[inline(never)]
fn told_first(
    entry: &mut Entry,
    words: &mut PlainWords,
    barred: &Barred,
    program: &Program,
    setting: &Setting,
) -> Signs
    requires program { program.now ≡ barred.now.target }
    requires belongs { BelongsTo barred.now setting.now entry.old.core }
    requires runs { is_idle entry.old.core.routine ≡ false }
    requires lawful { WordsSound barred.now.target setting.now words.old }
    ensures step { StepIs barred.now.target setting.now words.old words.new entry.old entry.new }
    ensures belongs { BelongsTo barred.now setting.now entry.new.core }
    ensures lawful { WordsSound barred.now.target setting.now words.new }
    ensures told { result ≡ signs_told barred.now.target setting.now words.old entry.old.core }
{
    let signs = signs_next(entry, words, barred, program, setting);
    step_on(entry, words, barred, program, setting);
    signs
}

fn is_load(instr: Option<Step>) -> bool
    ensures { result ≡ is_load_at (shown_at instr.entry) }
{
    match instr {
        Some(Step::Plain(Instr::LoadRoot(..))) => true,
        Some(Step::Plain(Instr::LoadPick(..))) => true,
        Some(Step::Plain(Instr::LoadField(..))) => true,
        _ => false,
    }
}

/// A step at an access of the method, whose code is given.
#[inline(always)]
fn told_at(
    entry: &mut Entry,
    words: &mut PlainWords,
    barred: &Barred,
    program: &Program,
    setting: &Setting,
    code: Code,
) -> Signs
    requires program { program.now ≡ barred.now.target }
    requires optimistic { setting.now.reclamation ≡ Optimistic }
    requires belongs { BelongsTo barred.now setting.now entry.old.core }
    requires stands { entry.old.core.routine ≡ At }
    requires code { code_shown code ≡ code_in program.now entry.old.core }
    requires lawful { WordsSound barred.now.target setting.now words.old }
    ensures step { StepIs barred.now.target setting.now words.old words.new entry.old entry.new }
    ensures belongs { BelongsTo barred.now setting.now entry.new.core }
    ensures lawful { WordsSound barred.now.target setting.now words.new }
    ensures told { result ≡ signs_told barred.now.target setting.now words.old entry.old.core }
{
    match entry.instr_of(code) {
        Some(Step::Check) => told_check(entry, words, barred, program, setting, code),
        instr => {
            if is_load(instr) {
                told_load(entry, words, barred, program, setting, code, instr)
            } else {
                told_first(entry, words, barred, program, setting)
            }
        }
    }
}

/// A load makes an access, and in a wrap-up its run owes one from then on.
#[inline(always)]
fn told_load(
    entry: &mut Entry,
    words: &mut PlainWords,
    barred: &Barred,
    program: &Program,
    setting: &Setting,
    code: Code,
    instr: Option<Step>,
) -> Signs
    requires program { program.now ≡ barred.now.target }
    requires optimistic { setting.now.reclamation ≡ Optimistic }
    requires belongs { BelongsTo barred.now setting.now entry.old.core }
    requires stands { entry.old.core.routine ≡ At }
    requires code { code_shown code ≡ code_in program.now entry.old.core }
    requires instr { shown_at instr ≡ instr_in program.now entry.old.core }
    requires loads { is_load_at (instr_in program.now entry.old.core) ≡ true }
    requires lawful { WordsSound barred.now.target setting.now words.old }
    ensures step { StepIs barred.now.target setting.now words.old words.new entry.old entry.new }
    ensures belongs { BelongsTo barred.now setting.now entry.new.core }
    ensures lawful { WordsSound barred.now.target setting.now words.new }
    ensures told { result ≡ signs_told barred.now.target setting.now words.old entry.old.core }
{
    let owes = entry.is_wrap_up();
    step_with(entry, words, barred, program, setting, code, instr);
    Signs::of(Some(Sign::Access), entry.has_ended(owes))
}

/// The signs of a check, by where the caller stands after it. Only one that passes goes on with a run that owed an access.
#[inline(always)]
fn check_signs(entry: &Entry, passes: bool, owes: bool) -> Signs
    ensures { result ≡ signs_of (check_named passes) (told_by (passes && owes) entry.now.core.routine) }
{
    let owing = if passes { owes } else { false };
    Signs::of(check_named(passes), entry.has_ended(owing))
}

/// A check that fails puts the word found in the place of the one seen.
#[inline(always)]
fn told_check(
    entry: &mut Entry,
    words: &mut PlainWords,
    barred: &Barred,
    program: &Program,
    setting: &Setting,
    code: Code,
) -> Signs
    requires program { program.now ≡ barred.now.target }
    requires optimistic { setting.now.reclamation ≡ Optimistic }
    requires belongs { BelongsTo barred.now setting.now entry.old.core }
    requires stands { entry.old.core.routine ≡ At }
    requires code { code_shown code ≡ code_in program.now entry.old.core }
    requires check { instr_in program.now entry.old.core ≡ Some Check }
    requires lawful { WordsSound barred.now.target setting.now words.old }
    ensures step { StepIs barred.now.target setting.now words.old words.new entry.old entry.new }
    ensures belongs { BelongsTo barred.now setting.now entry.new.core }
    ensures lawful { WordsSound barred.now.target setting.now words.new }
    ensures told { result ≡ signs_told barred.now.target setting.now words.old entry.old.core }
{
    let (seen, owes) = (entry.seen(), entry.owes());
    step_with(
        entry,
        words,
        barred,
        program,
        setting,
        code,
        Some(Step::Check),
    );
    let passes = entry.seen() == seen;
    check_signs(entry, passes, owes)
}
