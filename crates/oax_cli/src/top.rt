//! The top call.

ghost use Rattle.std.specs.Prelude.{◌≡◌, map};
ghost use Rattle.std.specs.String.{string_bytes};
ghost use Rattle.oax_cli.specs.Judgements.{IsJudged, FaultsAreTold, IsNotProper};
ghost use Rattle.oax_cli.specs.Telling.{IsSaid, text_for, ending_for};

use crate::ending::Ending;
use crate::judging::judge_source;
use crate::request::{Request, request_of};
use crate::telling::say;
use crate::verdict::Verdict;
use oa_text::{Sink, Source};
use proper_judge::improper_is_improper;
use std::alloc::Global;

/// What became of a command: what was read and judged, and how it ended.
#[derive(Drop)]
pub struct Outcome {
    pub verdict: Verdict,
    pub ending: Ending,
}

/// Does what the words ask for. Words that ask for no certificate leave the source unread.
fn judge<S: Source>(alloc: Global, words: &[String], input: &mut S) -> Verdict
    ensures { IsJudged (map string_bytes words.now) (S.left input.old) (S.left input.new) (S.faults input.old) (S.faults input.new) result }
{
    match request_of(words) {
        None => Verdict::Usage,
        Some(Request::Help) => Verdict::Help,
        Some(Request::Version) => Verdict::Version,
        Some(Request::Proper) => judge_source(alloc, input),
    }
}

/// Does all that the program does: reads the words and the source, and writes whether the run of the source's certificate shows that its
/// text isn't proper. The first two clauses say what was read and judged, and what was written and how the command ends. The third says that
/// each fault is told. The fourth is what the answer `improper` is for: the text isn't proper then.
pub fn oax_main<S: Source, K: Sink>(
    alloc: Global,
    words: &[String],
    input: &mut S,
    out: &mut K,
) -> Outcome
    ensures judged { IsJudged (map string_bytes words.now) (S.left input.old) (S.left input.new) (S.faults input.old) (S.faults input.new) result.verdict }
    ensures said { IsSaid (K.written out.old) (K.written out.new) (K.faults out.old) (K.faults out.new) (text_for result.verdict) (ending_for result.verdict) result.ending }
    ensures told { FaultsAreTold (S.faults input.old) (S.faults input.new) (K.faults out.old) (K.faults out.new) result.ending }
    ensures improper { IsNotProper (S.left input.old) (S.left input.new) result.verdict }
{
    // A law: a run with a breach is one of a text that isn't proper.
    improper_is_improper();
    let verdict = judge(alloc, words, input);
    let ending = say(out, &verdict);
    Outcome { verdict, ending }
}
