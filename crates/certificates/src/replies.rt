//! The lines of replies, each after its first word, and the replies by their callers.

ghost use Rattle.std.specs.Prelude.{◌≡◌, ◌++◌, ◌∷◌, [], ◌+◌, ◌<◌, ◌^◌, length, OnOk, IfOk};
ghost use Rattle.line_words.specs.Answered.{Reads};
ghost use Rattle.certificates.specs.EventLines.{reply_by, reply_of, may_reply, claim_line};
ghost use Rattle.certificates.specs.Shown.{reply_word_shown};
ghost use Rattle.certificates.specs.Accounts.{grown, with_claim};

use crate::certificate::{ReplyList, ReplyLists};
use line_words::fault::Fault;
use line_words::number::number_in;
use line_words::words::{Words, value_of};
use norm_lang::list::Listed;
use source_machine::SourceReply;
use std::alloc::{AllocError, Global};
use std::marker::Model;

/// A caller, and a reply that is claimed of it.
#[derive(Clone, Copy)]
pub(crate) struct Claim {
    pub(crate) caller: u64,
    pub(crate) reply: SourceReply,
}

/// A reply as it is spelled: a number that exceeds 2^64 - 1 is none.
#[derive(Clone, Copy)]
pub(crate) enum ReplyWord {
    Spelled(Option<u64>),
    Nothing,
    Full,
    Phases(Option<u64>),
}

/// `none`, `full`, `phases P` or a number, by its first word.
fn reply_by(word: &[u8], words: &mut Words) -> Result<ReplyWord, Fault>
    ensures { Reads reply_word_shown result (reply_by word.now words.old) }
{
    if word == b"none".as_slice() {
        words.end()?;
        Ok(ReplyWord::Nothing)
    } else if word == b"full".as_slice() {
        words.end()?;
        Ok(ReplyWord::Full)
    } else if word == b"phases".as_slice() {
        let phase = words.number()?;
        words.end()?;
        Ok(ReplyWord::Phases(phase))
    } else {
        let number = number_in(word)?;
        words.end()?;
        Ok(ReplyWord::Spelled(number))
    }
}

/// The reply, unless a number exceeds 2^64 - 1.
fn reply_of(word: ReplyWord) -> Result<SourceReply, Fault>
    ensures { Reads (λ reply. reply) result (reply_of (reply_word_shown word)) }
{
    match word {
        ReplyWord::Spelled(number) => Ok(SourceReply::Number(value_of(number)?)),
        ReplyWord::Nothing => Ok(SourceReply::Nothing),
        ReplyWord::Full => Ok(SourceReply::Full),
        ReplyWord::Phases(phase) => Ok(SourceReply::Phases(value_of(phase)?)),
    }
}

/// Whether a caller has a script, of which there are `scripts`, and isn't below the last caller that has a reply. The callers up to that
/// one are `so_far`.
fn may_reply(scripts: usize, so_far: usize, caller: Option<u64>) -> bool
    ensures { result ≡ may_reply scripts so_far caller }
{
    match caller {
        None => false,
        Some(caller) => caller < scripts as u64 && so_far as u64 <= caller + 1,
    }
}

/// `C V`, where V is a number, `none`, `full` or `phases P`.
pub(crate) fn claim_of(scripts: usize, so_far: usize, words: &mut Words) -> Result<Claim, Fault>
    ensures says { Reads (λ claim. claim) result (claim_line scripts so_far words.old) }
    ensures known { IfOk result (λ claim. claim.caller < scripts) }
{
    let caller = words.number()?;
    let first = words.word()?;
    let spelled = reply_by(first, words)?;
    if !may_reply(scripts, so_far, caller) {
        return Err(Fault::Form);
    }
    let caller = value_of(caller)?;
    let reply = reply_of(spelled)?;
    Ok(Claim { caller, reply })
}

/// Lists of replies, one for each caller up to the last that has one.
#[derive(Drop)]
pub(crate) struct ReplyTable {
    lists: Vec<ReplyList>,
}

impl Model for ReplyTable {
    ghost use Rattle.std.specs.Prelude.{List};
    ghost use Rattle.norm_lang.specs.declared.reply.SourceReply.{SourceReply};

    ghost Value = { List (List SourceReply) };

    ghost view = { λ n. n.lists.items };
}

impl ReplyTable {
    pub(crate) fn empty(alloc: Global) -> ReplyTable
        ensures { result ≡ [] }
    {
        ReplyTable {
            lists: Vec::new(alloc),
        }
    }

    /// The callers up to the last that has a list.
    pub(crate) fn count(&self) -> usize
        ensures { result ≡ length self.now }
    {
        self.lists.len()
    }

    /// One more caller, without a reply.
    fn add_list(&mut self, alloc: Global) -> Result<(), AllocError>
        ensures { OnOk result (self.new ≡ self.old ++ [] ∷ []) }
    {
        self.lists.push(Listed::empty(alloc))?;
        Ok(())
    }

    /// Further callers without a reply, so that there are so many.
    #[tactic(auto, using(crate::proofs::Tables::grown_more, crate::proofs::Tables::grown_whole))]
    pub(crate) fn grow(&mut self, alloc: Global, count: usize) -> Result<(), AllocError>
        ensures { OnOk result (self.new ≡ grown count self.old) }
    {
        'lists: while self.lists.len() < count {
            self.add_list(alloc)?;
        }
        Ok(())
    }

    /// One more reply of a caller.
    pub(crate) fn add(&mut self, alloc: Global, claim: Claim) -> Result<(), AllocError>
        requires { claim.caller + 1 < 2 ^ 64 }
        ensures { OnOk result (self.new ≡ with_claim claim self.old) }
    {
        self.grow(alloc, claim.caller as usize + 1)?;
        match self.lists.get_mut(claim.caller as usize) {
            None => Ok(()),
            Some(list) => list.push(claim.reply),
        }
    }

    pub(crate) fn into_lists(self) -> ReplyLists
        ensures { result ≡ self }
    {
        Listed::from_vec(self.lists)
    }
}
