//! A caller of a text that is run as it is, under epochs.

ghost use Rattle.std.specs.Prelude.{◌≡◌, ℕ, ◌<◌, ◌+◌, ◌-◌, ◌∷◌, [], true, false, length};
ghost use Rattle.caller_steps.specs.After.{taken};
ghost use Rattle.caller_steps.specs.Entries.{is_idle};
ghost use Rattle.caller_parts.specs.Calls.{is_call};
ghost use Rattle.word_runner.specs.table_rule.Rule.{callers_of};
ghost use Rattle.word_runner.specs.table_rule.Plays.{Belonging, Apart};
ghost use Rattle.word_runner.specs.table_rule.Seats.{cores};
ghost use Rattle.word_runner.specs.Shown.{CameFrom, Operated};
ghost use Rattle.word_runner.specs.Outcome.{Replies};
ghost use Rattle.epoch_runner.specs.Outcomes.{epoch_answer_of, epoch_told};

use crate::arena::EpochArena;
use crate::rest::EpochRest;
use std::marker::Model;
use word_runner::{Caller, Outcome};

/// How a call of `operate` or `resume` ended: with the operation's number or with nothing; with no slot left after two sweeps of its
/// claim; with the last phase, which a sweep had loaded; or with the budget used up while the operation runs.
#[derive(Clone, Copy, PartialEq, Eq, Drop)]
pub enum EpochOutcome {
    Replied(Option<u64>),
    Full,
    PhasesOver(u64),
    Spent,
}

/// A caller: its entry in memory, and the seat at the table that knows it. What it does between two accesses touches its own entry
/// alone.
#[derive(Drop)]
pub struct EpochCaller {
    caller: Caller,
}

impl Model for EpochCaller {
    ghost use Rattle.word_runner.specs.Shown.{CallerShown};

    ghost Value = { CallerShown };

    ghost view = { λ c. c.caller };
}

fn told(outcome: Outcome) -> EpochOutcome
    ensures { result ≡ epoch_told outcome }
{
    match outcome {
        Outcome::Replied(number) => EpochOutcome::Replied(number),
        Outcome::Full => EpochOutcome::Full,
        Outcome::PhasesOver(phase) => EpochOutcome::PhasesOver(phase),
        Outcome::Spent => EpochOutcome::Spent,
    }
}

impl EpochCaller {
    pub(crate) fn over(caller: Caller) -> EpochCaller
        ensures { result ≡ caller }
    {
        EpochCaller { caller }
    }

    /// Its number, from 0 on: that of the place that it took.
    pub fn number(&self) -> u32
        ensures { result ≡ self.now.entry.core.number }
    {
        self.caller.number()
    }

    /// Whether no operation runs.
    pub fn is_idle(&self) -> bool
        ensures { result ≡ is_idle self.now.entry.core.routine }
    {
        self.caller.is_idle()
    }

    /// For how many more replies it has room.
    pub fn spare(&self) -> u32
        ensures { result ≡ self.now.entry.room - length self.now.entry.core.replies }
    {
        self.caller.spare()
    }

    /// Comes to rest with its entry, also in mid-operation. Takes no memory.
    pub fn rest(self) -> EpochRest
        ensures is { result ≡ record { table = self.table; fixed = self.fixed; entries = self.entry ∷ []; accesses = self.accesses; parts = self.parts } }
        ensures apart { Apart (callers_of self.fixed) (cores result.entries) }
    {
        let EpochCaller { caller } = self;
        EpochRest::over(caller.rest())
    }

    /// Takes a call of the operation `op`, by its number in the text, and makes its accesses one after another, until it has ended or
    /// `budget` of them were made. It makes no other, and gives no part of its seat away. The caller is idle and has
    /// room for the reply, and the words of `args` past the operation's count are 0. Takes no memory, and waits for nobody.
    #[tactic(auto, using(crate::proofs::Outcomes::replies_told))]
    pub fn operate(
        &mut self,
        arena: &EpochArena,
        op: u8,
        args: [u64; 4],
        budget: u64,
    ) -> EpochOutcome
        requires came { CameFrom arena.now self.old.table self.old.fixed }
        requires idle { is_idle self.old.entry.core.routine ≡ true }
        requires spare { length self.old.entry.core.replies < self.old.entry.room }
        requires call { is_call self.old.fixed.target.target (record { op = op; args = args }) ≡ true }
        requires budget { 0 < budget }
        ensures same { (self.new.table ≡ self.old.table) × (self.new.fixed ≡ self.old.fixed) × (self.new.entry.room ≡ self.old.entry.room) }
        ensures steps { (accesses : ℕ) × (self.new.accesses ≡ self.old.accesses + accesses) × Operated self.old.fixed (taken self.old.fixed.setting.reclamation (record { op = op; args = args }) self.old.entry.core) budget self.new.entry.core accesses }
        ensures seat { self.new.parts ≡ self.old.parts }
        ensures belongs { Belonging self.old.fixed self.new.entry.core }
        ensures outcome { Replies self.old.entry.core (record { op = op; args = args }) (epoch_answer_of result) self.new.entry.core }
    {
        told(self.caller.operate(arena.shared(), op, args, budget))
    }

    /// Goes on with the call that runs, by at most `budget` further accesses. It makes no other, and gives no part of its seat away.
    #[tactic(auto, using(crate::proofs::Outcomes::replies_told))]
    pub fn resume(&mut self, arena: &EpochArena, budget: u64) -> EpochOutcome
        requires came { CameFrom arena.now self.old.table self.old.fixed }
        requires busy { is_idle self.old.entry.core.routine ≡ false }
        requires budget { 0 < budget }
        ensures same { (self.new.table ≡ self.old.table) × (self.new.fixed ≡ self.old.fixed) × (self.new.entry.room ≡ self.old.entry.room) }
        ensures steps { (accesses : ℕ) × (self.new.accesses ≡ self.old.accesses + accesses) × Operated self.old.fixed self.old.entry.core budget self.new.entry.core accesses }
        ensures seat { self.new.parts ≡ self.old.parts }
        ensures belongs { Belonging self.old.fixed self.new.entry.core }
        ensures outcome { Replies self.old.entry.core self.old.entry.core.running.call (epoch_answer_of result) self.new.entry.core }
    {
        told(self.caller.resume(arena.shared(), budget))
    }
}
