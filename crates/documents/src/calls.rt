//! The lines of scripts, each after its first word.

ghost use Rattle.line_words.specs.Answered.{Reads, Gives};
ghost use Rattle.documents.specs.TailLines.{script_line, arguments_at, call_line};

use crate::document::{Numbers, ScriptCall};
use crate::limits::{MOST_CALLS, MOST_SCRIPTS};
use line_words::fault::{Fault, Stop};
use line_words::number::number_in;
use line_words::words::{Words, name};
use norm_lang::list::Listed;
use std::alloc::Global;

/// `script C`, where C is the next script's number: at most 256 scripts.
pub(crate) fn script(next: usize, words: &mut Words) -> Result<(), Fault>
    ensures { Reads (λ _. tt) result (script_line next words.old) }
{
    let number = words.number()?;
    words.end()?;
    if number != Some(next as u64) {
        return Err(Fault::Form);
    }
    if next >= MOST_SCRIPTS {
        return Err(Fault::TooMany);
    }
    Ok(())
}

/// The arguments of a call, up to the end of the line: the form of all comes before the size of one.
#[tactic(auto, using(crate::proofs::Arguments::arguments_start, crate::proofs::Arguments::argument_more, crate::proofs::Arguments::argument_great, crate::proofs::Arguments::argument_odd, crate::proofs::Arguments::arguments_fit, crate::proofs::Arguments::arguments_exceed))]
fn arguments(alloc: Global, words: &mut Words) -> Result<Numbers, Stop>
    ensures { Gives (λ args. args) result (arguments_at words.old) }
{
    let mut args = Listed::empty(alloc);
    let mut great = false;
    'words: while let Some(word) = words.next_word() {
        match number_in(word)? {
            Some(value) => args.push(value)?,
            None => great = true,
        }
    }
    if great {
        return Err(Stop::Fault(Fault::Number));
    }
    Ok(args)
}

/// `NAME V V ..` at a line, after so many calls of its script: at most 100,000 calls.
pub(crate) fn call(
    alloc: Global,
    line: u32,
    calls: usize,
    word: &[u8],
    words: &mut Words,
) -> Result<ScriptCall, Stop>
    ensures { Gives (λ call. call) result (call_line line calls word.now words.old) }
{
    if !name(word) {
        return Err(Stop::Fault(Fault::Form));
    }
    let args = arguments(alloc, words)?;
    if calls >= MOST_CALLS as usize {
        return Err(Stop::Fault(Fault::TooMany));
    }
    Ok(ScriptCall {
        line,
        name: Listed::from_slice(alloc, word)?,
        args,
    })
}
