//! What the lines behind `events` say so far.

ghost use Rattle.std.specs.Prelude.{◌≡◌, ◌<◌, length};
ghost use Rattle.oa_text.specs.Shown.{line_shown};
ghost use Rattle.norm_lang.specs.Faults.{at_line};
ghost use Rattle.line_words.specs.Answered.{Gives, Answers};
ghost use Rattle.certificates.specs.Accounts.{no_account, in_events, in_claims, after_word, after_line};

use crate::certificate::Events;
use crate::events::event;
use crate::replies::{ReplyTable, claim_of};
use line_words::fault::{Fault, ParseError, Stop};
use line_words::words::Words;
use norm_lang::list::Listed;
use norm_lang::text::Op;
use oa_text::Line;
use std::alloc::Global;

/// The events, and the replies once they have begun.
#[derive(Drop)]
pub(crate) struct Account {
    pub(crate) in_replies: bool,
    pub(crate) events: Events,
    pub(crate) replies: ReplyTable,
}

impl Account {
    /// Nothing is said yet.
    pub(crate) fn empty(alloc: Global) -> Account
        ensures { result ≡ no_account }
    {
        Account {
            in_replies: false,
            events: Listed::empty(alloc),
            replies: ReplyTable::empty(alloc),
        }
    }

    /// One more event, or the line that begins the replies.
    fn in_events(&mut self, ops: &[Op], word: &[u8], words: &mut Words) -> Result<(), Stop>
        requires few { length ops.now < 256 }
        ensures { Gives (λ _. self.new) result (in_events ops.now self.old word.now words.old) }
    {
        if word == b"replies".as_slice() {
            words.end()?;
            self.in_replies = true;
            return Ok(());
        }
        let event = event(ops, word, words)?;
        self.events.push(event)?;
        Ok(())
    }

    /// One more reply.
    fn in_claims(
        &mut self,
        alloc: Global,
        scripts: usize,
        word: &[u8],
        words: &mut Words,
    ) -> Result<(), Stop>
        ensures { Gives (λ _. self.new) result (in_claims scripts self.old word.now words.old) }
    {
        if word != b"reply".as_slice() {
            return Err(Stop::Fault(Fault::Form));
        }
        let claim = claim_of(scripts, self.replies.count(), words)?;
        self.replies.add(alloc, claim)?;
        Ok(())
    }

    fn add_words(
        &mut self,
        alloc: Global,
        ops: &[Op],
        scripts: usize,
        word: &[u8],
        words: &mut Words,
    ) -> Result<(), Stop>
        requires few { length ops.now < 256 }
        ensures { Gives (λ _. self.new) result (after_word ops.now scripts self.old word.now words.old) }
    {
        if self.in_replies {
            self.in_claims(alloc, scripts, word, words)
        } else {
            self.in_events(ops, word, words)
        }
    }

    fn add_line(
        &mut self,
        alloc: Global,
        ops: &[Op],
        scripts: usize,
        line: Line,
    ) -> Result<(), Stop>
        requires few { length ops.now < 256 }
        ensures { Gives (λ _. self.new) result (after_line ops.now scripts self.old (line_shown line.entry)) }
    {
        let mut words = Words::new(line)?;
        match words.first() {
            None => Ok(()),
            Some(word) => self.add_words(alloc, ops, scripts, word, &mut words),
        }
    }

    /// Adds what a line says, given the count of scripts.
    pub(crate) fn read_line(
        &mut self,
        alloc: Global,
        ops: &[Op],
        scripts: usize,
        line: Line,
    ) -> Result<(), ParseError>
        requires few { length ops.now < 256 }
        ensures { Answers (λ _. self.new) result (at_line (line_shown line.entry).number (after_line ops.now scripts self.old (line_shown line.entry))) }
    {
        match self.add_line(alloc, ops, scripts, line) {
            Ok(()) => Ok(()),
            Err(stop) => Err(stop.at(line.number())),
        }
    }
}
