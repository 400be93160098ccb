//! A caller's start, its calls and its steps, on words in a vector.

ghost use Rattle.std.specs.Prelude.{◌≡◌, ◌<◌, ◌==◌, drop, length, option_copied, IfOk};
ghost use Rattle.std.specs.List.{list_all};
ghost use Rattle.caller_parts.specs.declared.setting.Reclamation.TheVariants.{Optimistic};
ghost use Rattle.caller_parts.specs.Calls.{is_call_of};
ghost use Rattle.caller_parts.specs.Settings.{Fits};
ghost use Rattle.oa_words.specs.Words.{word_count};
ghost use Rattle.core_entries.specs.Callers.{BelongsTo};
ghost use Rattle.core_entries.specs.Steps.{WordsSound};

use barrier_check::Barred;
use caller_parts::Reclamation;
use oa_core::laws::runs_in_row;
use oa_core::{Call, Entry, PlainWords, Port, Setting, Signs, StepKind};
use phase_pools::access::Access;
use std::alloc::{AllocError, Global};
use target_code::target::TargetOp;

/// The words of a target at the start.
#[tactic(auto, using(crate::proofs::Starting::as_many_at_start))]
pub(crate) fn words_of(
    alloc: Global,
    barred: &Barred,
    setting: &Setting,
) -> Result<PlainWords, AllocError>
    requires { Fits barred.now.target setting.now }
    ensures sound { IfOk result (λ words. WordsSound barred.now.target setting.now words) }
    ensures count { IfOk result (λ words. length words ≡ word_count setting.now.sizes) }
{
    // A law: the words at the start are those of the row, and sound.
    runs_in_row(barred, setting);
    let words = PlainWords::new(alloc, barred, setting)?;
    Ok(words)
}

/// An idle entry of a caller with this number.
pub(crate) fn entry_of(
    alloc: Global,
    barred: &Barred,
    setting: &Setting,
    number: u32,
    room: u32,
) -> Result<Entry, AllocError>
    requires fits { Fits barred.now.target setting.now }
    requires number { number < setting.now.sizes.callers }
    ensures { IfOk result (λ e. BelongsTo barred.now setting.now e.core) }
{
    barred.kept();
    let entry = Entry::new(alloc, number, room)?;
    Ok(entry)
}

/// Whether all words are 0.
pub(crate) fn are_zero(words: &[u64]) -> bool
    ensures { result ≡ list_all (λ word. word == 0) words.now }
{
    words.iter().all(|word| *word == 0)
}

/// The arguments past so many.
pub(crate) fn past(args: &[u64; 4], count: usize) -> &[u64]
    ensures { result.now ≡ drop count args.now }
{
    args.get(count..).unwrap_or(&[])
}

fn is_call_of(op: Option<&TargetOp>, args: &[u64; 4]) -> bool
    ensures { result ≡ is_call_of (option_copied op.entry) args.now }
{
    match op {
        None => false,
        Some(op) => are_zero(past(args, op.args as usize)),
    }
}

/// Whether the entry takes a call with one argument: it is idle, has room for the reply, and the target has the call.
fn begin_on(barred: &Barred, setting: &Setting, entry: &mut Entry, op: u8, arg: u64) -> bool
    requires optimistic { setting.now.reclamation ≡ Optimistic }
    requires belongs { BelongsTo barred.now setting.now entry.old.core }
    ensures { BelongsTo barred.now setting.now entry.new.core }
{
    let call = Call {
        op,
        args: [arg, 0, 0, 0],
    };
    let found = barred.target().ops.items().get(op as usize);
    if !entry.is_idle() || entry.spare() == 0 || !is_call_of(found, &call.args) {
        return false;
    }
    entry.begin(barred, call.op, call.args);
    true
}

/// `begin_on` for a caller that goes by optimistic access, as each of these rows does.
pub(crate) fn begin(barred: &Barred, setting: &Setting, entry: &mut Entry, op: u8, arg: u64) -> bool
    requires { BelongsTo barred.now setting.now entry.old.core }
    ensures { BelongsTo barred.now setting.now entry.new.core }
{
    match setting.reclamation() {
        Reclamation::Optimistic => begin_on(barred, setting, entry, op, arg),
        Reclamation::Epochs => false,
    }
}

/// What a step of a caller was: its access, the kind of that access if turns count it, and what it tells the source machine.
#[derive(Drop)]
pub(crate) struct Stepped {
    pub(crate) access: Access,
    pub(crate) kind: Option<StepKind>,
    pub(crate) signs: Signs,
}

/// A step of a caller that runs. If the caller is idle, there is none.
pub(crate) fn step(
    barred: &Barred,
    setting: &Setting,
    entry: &mut Entry,
    words: &mut PlainWords,
) -> Option<Stepped>
    requires belongs { BelongsTo barred.now setting.now entry.old.core }
    requires lawful { WordsSound barred.now.target setting.now words.old }
    ensures belongs { BelongsTo barred.now setting.now entry.new.core }
    ensures lawful { WordsSound barred.now.target setting.now words.new }
{
    barred.kept();
    setting.kept();
    match entry.pending(barred, setting) {
        None => None,
        Some(access) => {
            let kind = entry.next_kind(barred, setting);
            let word = words.access(access);
            let signs = entry.signs(barred, setting, word);
            entry.accept(barred, setting, word);
            Some(Stepped {
                access,
                kind,
                signs,
            })
        }
    }
}
