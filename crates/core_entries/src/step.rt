//! One step of one caller on words in a vector.

ghost use Rattle.std.specs.Prelude.{◌≡◌, false, slice_index};
ghost use Rattle.caller_parts.specs.Codes.{code_shown, shown_at};
ghost use Rattle.caller_steps.specs.Entries.{is_idle, code_in, instr_in};
ghost use Rattle.caller_parts.specs.declared.routine.Routine.TheVariants.{At};
ghost use Rattle.core_entries.specs.Callers.{BelongsTo};
ghost use Rattle.core_entries.specs.Steps.{WordsSound, StepIs, RunIs};
ghost use Rattle.core_entries.specs.StepSigns.{signs_told};

use crate::entry::Entry;
use crate::signs::Signs;
use barrier_check::Barred;
use caller_steps::{Code, Program, Setting, Step};
use core_ground::port::at_of;
use core_ground::{PlainWords, Port};

/// A step of a caller that runs: it makes the access that it wants, and goes on with the word found. The program of the target was made
/// once for many steps.
#[inline(always)]
pub fn step_on(
    entry: &mut Entry,
    words: &mut PlainWords,
    barred: &Barred,
    program: &Program,
    setting: &Setting,
)
    requires program { program.now ≡ barred.now.target }
    requires belongs { BelongsTo barred.now setting.now entry.old.core }
    requires runs { is_idle entry.old.core.routine ≡ false }
    requires lawful { WordsSound barred.now.target setting.now words.old }
    ensures step { StepIs barred.now.target setting.now words.old words.new entry.old entry.new }
    ensures belongs { BelongsTo barred.now setting.now entry.new.core }
    ensures lawful { WordsSound barred.now.target setting.now words.new }
{
    match entry.code_at(program) {
        None => step_apart(entry, words, barred, program, setting),
        Some(code) => step_at(entry, words, barred, program, setting, code),
    }
}

/// Steps of a caller up to the end of its call, and so many at most. It answers how many of these are left. One that is idle makes none.
/// The program of the target was made once for many steps.
#[inline(never)]
pub fn run_on(
    entry: &mut Entry,
    words: &mut PlainWords,
    barred: &Barred,
    program: &Program,
    setting: &Setting,
    most: u64,
) -> u64
    requires program { program.now ≡ barred.now.target }
    requires belongs { BelongsTo barred.now setting.now entry.old.core }
    requires lawful { WordsSound barred.now.target setting.now words.old }
    ensures ran { RunIs barred.now.target setting.now most result words.old words.new entry.old entry.new }
    ensures belongs { BelongsTo barred.now setting.now entry.new.core }
    ensures lawful { WordsSound barred.now.target setting.now words.new }
{
    let mut left = most;
    'steps: while left > 0 && !entry.is_idle() {
        step_on(entry, words, barred, program, setting);
        left -= 1;
    }
    left
}

/// A step at an access of the method, whose code is given. That of a check is known where it is made.
#[inline(always)]
fn step_at(
    entry: &mut Entry,
    words: &mut PlainWords,
    barred: &Barred,
    program: &Program,
    setting: &Setting,
    code: Code,
)
    requires program { program.now ≡ barred.now.target }
    requires belongs { BelongsTo barred.now setting.now entry.old.core }
    requires stands { entry.old.core.routine ≡ At }
    requires code { code_shown code ≡ code_in program.now entry.old.core }
    requires lawful { WordsSound barred.now.target setting.now words.old }
    ensures step { StepIs barred.now.target setting.now words.old words.new entry.old entry.new }
    ensures belongs { BelongsTo barred.now setting.now entry.new.core }
    ensures lawful { WordsSound barred.now.target setting.now words.new }
{
    match entry.instr_of(code) {
        Some(Step::Check) => {
            step_with(
                entry,
                words,
                barred,
                program,
                setting,
                code,
                Some(Step::Check),
            );
        }
        instr => step_with(entry, words, barred, program, setting, code, instr),
    }
}

/// The same, with the instruction.
#[inline(always)]
#[tactic(auto, using(crate::proofs::Stepping::step_within, crate::proofs::Stepping::step_told, crate::proofs::Stepping::step_wants, crate::proofs::Stepping::step_lawful, crate::proofs::Stepping::step_is))]
pub(crate) fn step_with(
    entry: &mut Entry,
    words: &mut PlainWords,
    barred: &Barred,
    program: &Program,
    setting: &Setting,
    code: Code,
    instr: Option<Step>,
)
    requires program { program.now ≡ barred.now.target }
    requires belongs { BelongsTo barred.now setting.now entry.old.core }
    requires stands { entry.old.core.routine ≡ At }
    requires code { code_shown code ≡ code_in program.now entry.old.core }
    requires instr { shown_at instr ≡ instr_in program.now entry.old.core }
    requires lawful { WordsSound barred.now.target setting.now words.old }
    ensures step { StepIs barred.now.target setting.now words.old words.new entry.old entry.new }
    ensures belongs { BelongsTo barred.now setting.now entry.new.core }
    ensures lawful { WordsSound barred.now.target setting.now words.new }
{
    setting.kept();
    barred.kept();
    if let Some(access) = entry.pending_at(barred, program, setting, instr) {
        let word = words.access(access);
        entry.accept_at(barred, program, setting, code, instr, word);
    }
}

/// A step at any access.
#[inline(always)]
#[tactic(auto, using(crate::proofs::Stepping::step_within, crate::proofs::Stepping::step_told, crate::proofs::Stepping::step_wants, crate::proofs::Stepping::step_lawful, crate::proofs::Stepping::step_is))]
fn step_apart(
    entry: &mut Entry,
    words: &mut PlainWords,
    barred: &Barred,
    program: &Program,
    setting: &Setting,
)
    requires program { program.now ≡ barred.now.target }
    requires belongs { BelongsTo barred.now setting.now entry.old.core }
    requires runs { is_idle entry.old.core.routine ≡ false }
    requires lawful { WordsSound barred.now.target setting.now words.old }
    ensures step { StepIs barred.now.target setting.now words.old words.new entry.old entry.new }
    ensures belongs { BelongsTo barred.now setting.now entry.new.core }
    ensures lawful { WordsSound barred.now.target setting.now words.new }
{
    setting.kept();
    barred.kept();
    if let Some(access) = entry.pending_in(barred, program, setting) {
        let word = words.access(access);
        entry.accept_in(barred, program, setting, word);
    }
}

fn word_at(words: &PlainWords, at: u32) -> u64
    ensures { result ≡ slice_index words.now at }
{
    words.words().get(at as usize).copied().unwrap_or(0)
}

/// What the next step of a caller tells the source machine, for many steps of one target, whose program was made once for them.
#[tactic(auto, using(crate::proofs::Stepping::step_found, crate::proofs::Stepping::step_wants, crate::proofs::Stepping::step_tells, crate::proofs::Stepping::idle_tells))]
pub fn signs_next(
    entry: &Entry,
    words: &PlainWords,
    barred: &Barred,
    program: &Program,
    setting: &Setting,
) -> Signs
    requires program { program.now ≡ barred.now.target }
    requires belongs { BelongsTo barred.now setting.now entry.now.core }
    requires lawful { WordsSound barred.now.target setting.now words.now }
    ensures { result ≡ signs_told barred.now.target setting.now words.now entry.now.core }
{
    setting.kept();
    barred.kept();
    match entry.pending_in(barred, program, setting) {
        None => Signs::of(None, false),
        Some(access) => {
            let word = word_at(words, at_of(access));
            entry.signs_in(barred, program, setting, word)
        }
    }
}
