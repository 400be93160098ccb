//! A caller's entry.

ghost use Rattle.std.specs.Prelude.{◌≡◌, ◌≢◌, ◌-◌, ◌<◌, None, IfOk, IfSome, length, map, slice_get, true, is_some, not, ◌&&◌};
ghost use Rattle.caller_steps.specs.Entries.{idle_entry, is_idle, is_at_access, code_in, instr_in};
ghost use Rattle.caller_parts.specs.declared.routine.Routine.TheVariants.{At};
ghost use Rattle.caller_parts.specs.Pairing.{reply_of};
ghost use Rattle.caller_parts.specs.Codes.{code_shown, shown_at};
ghost use Rattle.caller_parts.specs.declared.setting.Reclamation.TheVariants.{Optimistic};
ghost use Rattle.caller_parts.specs.Calls.{is_call};
ghost use Rattle.caller_steps.specs.Asking.{located_option};
ghost use Rattle.caller_steps.specs.Lawful.{MayBeTold};
ghost use Rattle.caller_steps.specs.Wants.{wants};
ghost use Rattle.caller_steps.specs.After.{after, taken};
ghost use Rattle.caller_steps.specs.Belongs.{is_check_at};
ghost use Rattle.core_runs.specs.Replays.{is_spent, stands_at_check, kind_wanted};
ghost use Rattle.core_entries.specs.StepSigns.{step_signs};
ghost use Rattle.core_ground.specs.Running.{pair_of};
ghost use Rattle.core_entries.specs.Told.{told_by};
ghost use Rattle.core_entries.specs.Callers.{BelongsTo, BelongsToAll, BelongsToSome, StaysWithAll, IsInRow};

use crate::kinds::{first_field, is_check, kind_at, pool_head};
use crate::signs::{Signs, signs_after};
use barrier_check::Barred;
use caller_parts::{AfterClear, MethodStart};
use caller_steps::{Call, Code, Entry as State, Program, Reclamation, Reply, Setting, Stand, Step};
use core_ground::{LoadedTarget, Prepared, Ready, Runs};
use phase_pools::access::Access;
use schedule_turns::StepKind;
use std::alloc::{AllocError, Global};
use std::marker::Model;

/// A caller of the core, with room for its replies: the call that it runs, where it stands in its method or in the routine of
/// its pool, its guards, the slots that it has claimed and hasn't published, its replies, and its counts. What it does is
/// Cohen and Petrank's optimistic access (SPAA 2015).
///
/// It runs step by step: `pending` is the one access that it makes next, and `accept` takes the word that this access found.
#[derive(Drop)]
pub struct Entry {
    state: State,
    room: u32,
}

impl Model for Entry {
    ghost use Rattle.std.specs.Prelude.{◌≡◌};
    ghost use Rattle.caller_steps.specs.Entries.{RoomyEntry};
    ghost use Rattle.core_entries.specs.Callers.{HasRoom};

    ghost Value = { RoomyEntry };

    ghost view = { λ e. e.state };

    ghost invariant = { λ e. HasRoom e.state × (e.room ≡ e.state.room) };
}

impl Entry {
    /// An idle entry of the caller with this number, counted from 0, with room for so many replies. It belongs to every barred
    /// target and fitting setting with more callers than its number.
    ///
    /// # Errors
    /// Memory ran out.
    #[tactic(auto, using(crate::proofs::Calling::new_belongs))]
    pub fn new(alloc: Global, number: u32, room: u32) -> Result<Entry, AllocError>
        ensures made { IfOk result (λ e. e ≡ record { core = idle_entry number; room = room }) }
        ensures belongs { BelongsToAll (idle_entry number) }
    {
        let state = State::new(alloc, number, room as usize)?;
        Ok(Entry { state, room })
    }

    /// Another number for an entry that is as `new` made it. Takes no memory.
    #[tactic(auto, using(crate::proofs::Calling::new_belongs))]
    pub fn renumber(&mut self, number: u32)
        requires fresh { self.old.core ≡ idle_entry self.old.core.number }
        ensures numbered { self.new ≡ record self.old { core = idle_entry number } }
        ensures belongs { BelongsToAll (idle_entry number) }
    {
        self.state.renumber(number);
    }

    /// Takes a call of the operation `op`, by its number in the target, with its arguments. The entry is idle and has room for
    /// the reply, and the words of `args` past the operation's count are 0.
    pub fn begin(&mut self, barred: &Barred, op: u8, args: [u64; 4])
        requires belongs { BelongsToSome barred.now self.old.core }
        requires idle { is_idle self.old.core.routine ≡ true }
        requires spare { length self.old.core.replies < self.old.room }
        requires call { is_call barred.now.target (record { op = op; args = args }) ≡ true }
        ensures taken { self.new ≡ record self.old { core = taken Optimistic (record { op = op; args = args }) self.old.core } }
        ensures belongs { StaysWithAll Optimistic barred.now self.old.core self.new.core }
    {
        self.begin_by(Reclamation::Optimistic, Runs::Barred(barred), op, args);
    }

    /// `begin` of what callers run, by the scheme of their setting.
    #[inline(never)]
    pub fn begin_by(&mut self, by: Reclamation, runs: Runs, op: u8, args: [u64; 4])
        requires belongs { BelongsToSome (pair_of runs) self.old.core }
        requires idle { is_idle self.old.core.routine ≡ true }
        requires room { length self.old.core.replies < self.old.room }
        requires call { is_call (pair_of runs).target (record { op = op; args = args }) ≡ true }
        ensures taken { self.new ≡ record self.old { core = taken by (record { op = op; args = args }) self.old.core } }
        ensures belongs { StaysWithAll by (pair_of runs.entry) self.old.core self.new.core }
    {
        runs.kept();
        self.state.begin(by, Call { op, args });
    }

    /// The one access that the entry makes next, to a word of the row; none exactly where it is idle.
    pub fn pending(&self, barred: &Barred, setting: &Setting) -> Option<Access>
        requires belongs { BelongsTo barred.now setting.now self.now.core }
        ensures wanted { result ≡ located_option setting.now.sizes (wants barred.now.target self.now.core) }
        ensures idle { is_some result ≡ not (is_idle self.now.core.routine) }
        ensures row { IsInRow setting.now result }
    {
        let prepared = Prepared::new(barred);
        self.pending_in(barred, &prepared.program(), setting)
    }

    /// `pending` of a loaded target.
    #[inline(always)]
    pub fn pending_on(&self, loaded: &LoadedTarget, setting: &Setting) -> Option<Access>
        requires belongs { BelongsTo loaded.now setting.now self.now.core }
        ensures wanted { result ≡ located_option setting.now.sizes (wants loaded.now.target self.now.core) }
        ensures idle { is_some result ≡ not (is_idle self.now.core.routine) }
        ensures row { IsInRow setting.now result }
    {
        setting.kept();
        loaded.kept();
        setting.limits();
        self.state.pending(&loaded.program(), setting)
    }

    /// `pending` of what callers run.
    pub fn pending_by(&self, runs: Runs, setting: &Setting) -> Option<Access>
        requires belongs { BelongsTo (pair_of runs) setting.now self.now.core }
        ensures wanted { result ≡ located_option setting.now.sizes (wants (pair_of runs.entry).target self.now.core) }
        ensures idle { is_some result ≡ not (is_idle self.now.core.routine) }
        ensures row { IsInRow setting.now result }
    {
        setting.kept();
        runs.kept();
        setting.limits();
        let ready = Ready::new(runs);
        self.state.pending(&ready.program(), setting)
    }

    /// `pending` for many steps of one target, whose program was made once for them.
    #[inline(always)]
    pub(crate) fn pending_in(
        &self,
        barred: &Barred,
        program: &Program,
        setting: &Setting,
    ) -> Option<Access>
        requires program { program.now ≡ barred.now.target }
        requires belongs { BelongsTo barred.now setting.now self.now.core }
        ensures wanted { result ≡ located_option setting.now.sizes (wants barred.now.target self.now.core) }
        ensures idle { is_some result ≡ not (is_idle self.now.core.routine) }
        ensures row { IsInRow setting.now result }
    {
        setting.kept();
        barred.kept();
        setting.limits();
        self.state.pending(program, setting)
    }

    /// The code of the method, exactly if the caller stands at an access of it.
    #[inline(always)]
    pub(crate) fn code_at<'a>(&self, program: &Program<'a>) -> Option<Code<'a>>
        ensures stands { is_some result ≡ is_at_access self.now.core.routine }
        ensures code { IfSome result (λ code. (self.now.core.routine ≡ At) × (code_shown code ≡ code_in program.now self.now.core)) }
    {
        self.state.code_at(program)
    }

    /// The instruction at which the entry stands, in the code of its method.
    #[inline(always)]
    pub(crate) fn instr_of<'a>(&self, code: Code<'a>) -> Option<Step<'a>>
        ensures { shown_at result ≡ slice_get (code_shown code.entry) self.now.core.hand.at }
    {
        code.at(self.state.hand.at)
    }

    /// `pending_in` where the caller stands at an access of its method, whose instruction is given.
    #[inline(always)]
    pub(crate) fn pending_at(
        &self,
        barred: &Barred,
        program: &Program,
        setting: &Setting,
        instr: Option<Step>,
    ) -> Option<Access>
        requires program { program.now ≡ barred.now.target }
        requires belongs { BelongsTo barred.now setting.now self.now.core }
        requires stands { self.now.core.routine ≡ At }
        requires instr { shown_at instr ≡ instr_in program.now self.now.core }
        ensures wanted { result ≡ located_option setting.now.sizes (wants barred.now.target self.now.core) }
        ensures idle { is_some result ≡ not (is_idle self.now.core.routine) }
    {
        setting.kept();
        barred.kept();
        setting.limits();
        self.state.pending_at(program, setting, instr)
    }

    /// The entry after its wanted access found a word, which is lawful where that access stood. What a store found is no
    /// matter.
    pub fn accept(&mut self, barred: &Barred, setting: &Setting, word: u64)
        requires belongs { BelongsTo barred.now setting.now self.old.core }
        requires wanted { wants barred.now.target self.old.core ≢ None }
        requires lawful { MayBeTold barred.now.target setting.now (wants barred.now.target self.old.core) word }
        ensures after { self.new ≡ record self.old { core = after barred.now.target setting.now self.old.core word } }
        ensures belongs { BelongsTo barred.now setting.now self.new.core }
    {
        let prepared = Prepared::new(barred);
        self.accept_in(barred, &prepared.program(), setting, word);
    }

    /// `accept` of a loaded target.
    #[inline(always)]
    pub fn accept_on(&mut self, loaded: &LoadedTarget, setting: &Setting, word: u64)
        requires belongs { BelongsTo loaded.now setting.now self.old.core }
        requires wanted { wants loaded.now.target self.old.core ≢ None }
        requires lawful { MayBeTold loaded.now.target setting.now (wants loaded.now.target self.old.core) word }
        ensures after { self.new ≡ record self.old { core = after loaded.now.target setting.now self.old.core word } }
        ensures belongs { BelongsTo loaded.now setting.now self.new.core }
    {
        setting.kept();
        loaded.kept();
        setting.limits();
        self.state.accept(&loaded.program(), setting, word);
    }

    /// `accept` of what callers run.
    pub fn accept_by(&mut self, runs: Runs, setting: &Setting, word: u64)
        requires belongs { BelongsTo (pair_of runs) setting.now self.old.core }
        requires wanted { wants (pair_of runs).target self.old.core ≢ None }
        requires lawful { MayBeTold (pair_of runs).target setting.now (wants (pair_of runs).target self.old.core) word }
        ensures after { self.new ≡ record self.old { core = after (pair_of runs.entry).target setting.now self.old.core word } }
        ensures belongs { BelongsTo (pair_of runs.entry) setting.now self.new.core }
    {
        setting.kept();
        runs.kept();
        setting.limits();
        let ready = Ready::new(runs);
        self.state.accept(&ready.program(), setting, word);
    }

    /// `accept` for many steps of one target, whose program was made once for them.
    #[inline(always)]
    pub(crate) fn accept_in(
        &mut self,
        barred: &Barred,
        program: &Program,
        setting: &Setting,
        word: u64,
    )
        requires program { program.now ≡ barred.now.target }
        requires belongs { BelongsTo barred.now setting.now self.old.core }
        requires wanted { wants barred.now.target self.old.core ≢ None }
        requires lawful { MayBeTold barred.now.target setting.now (wants barred.now.target self.old.core) word }
        ensures after { self.new ≡ record self.old { core = after barred.now.target setting.now self.old.core word } }
        ensures belongs { BelongsTo barred.now setting.now self.new.core }
    {
        setting.kept();
        barred.kept();
        setting.limits();
        self.state.accept(program, setting, word);
    }

    /// `accept_in` where the caller stands at an access of its method, whose code and instruction are given.
    #[inline(always)]
    pub(crate) fn accept_at(
        &mut self,
        barred: &Barred,
        program: &Program,
        setting: &Setting,
        code: Code,
        instr: Option<Step>,
        word: u64,
    )
        requires program { program.now ≡ barred.now.target }
        requires belongs { BelongsTo barred.now setting.now self.old.core }
        requires stands { self.old.core.routine ≡ At }
        requires code { code_shown code ≡ code_in program.now self.old.core }
        requires instr { shown_at instr ≡ instr_in program.now self.old.core }
        requires wanted { wants barred.now.target self.old.core ≢ None }
        requires lawful { MayBeTold barred.now.target setting.now (wants barred.now.target self.old.core) word }
        ensures after { self.new ≡ record self.old { core = after barred.now.target setting.now self.old.core word } }
        ensures belongs { BelongsTo barred.now setting.now self.new.core }
    {
        setting.kept();
        barred.kept();
        setting.limits();
        self.state.accept_at(program, setting, code, instr, word);
    }

    /// What the step tells the source machine that finds this word, with the conditions of `accept`; a restart is told also where
    /// the source doesn't enable it.
    pub fn signs(&self, barred: &Barred, setting: &Setting, word: u64) -> Signs
        requires belongs { BelongsTo barred.now setting.now self.now.core }
        requires wanted { wants barred.now.target self.now.core ≢ None }
        requires lawful { MayBeTold barred.now.target setting.now (wants barred.now.target self.now.core) word }
        ensures { result ≡ step_signs barred.now.target setting.now self.now.core word }
    {
        let prepared = Prepared::new(barred);
        self.signs_in(barred, &prepared.program(), setting, word)
    }

    /// `signs` for many steps of one target, whose program was made once for them.
    pub fn signs_in(
        &self,
        barred: &Barred,
        program: &Program,
        setting: &Setting,
        word: u64,
    ) -> Signs
        requires program { program.now ≡ barred.now.target }
        requires belongs { BelongsTo barred.now setting.now self.now.core }
        requires wanted { wants barred.now.target self.now.core ≢ None }
        requires lawful { MayBeTold barred.now.target setting.now (wants barred.now.target self.now.core) word }
        ensures { result ≡ step_signs barred.now.target setting.now self.now.core word }
    {
        setting.kept();
        barred.kept();
        setting.limits();
        signs_after(&self.state, program, setting, word)
    }

    /// The phase that its method has seen.
    #[inline(always)]
    pub(crate) fn seen(&self) -> u64
        ensures { result ≡ self.now.core.hand.seen }
    {
        self.state.hand.seen
    }

    #[inline(always)]
    pub(crate) fn is_wrap_up(&self) -> bool
        ensures { result ≡ self.now.core.hand.wrapup }
    {
        self.state.hand.wrapup
    }

    /// Whether its run owes the source an access for its end.
    #[inline(always)]
    pub(crate) fn owes(&self) -> bool
        ensures { result ≡ (self.now.core.hand.wrapup && self.now.core.hand.accessed) }
    {
        self.state.hand.wrapup && self.state.hand.accessed
    }

    /// Whether local code has come to an end that the source is told, by where the entry stands now.
    #[inline(always)]
    pub(crate) fn has_ended(&self, owes: bool) -> bool
        ensures { result ≡ told_by owes self.now.core.routine }
    {
        match self.state.stand {
            Stand::Idle => owes,
            Stand::LoadSeen(MethodStart::Begin) => false,
            Stand::LoadSeen(MethodStart::WrapUp) => true,
            Stand::LoadSeen(MethodStart::Again) => owes,
            Stand::Clears(AfterClear::New) => false,
            Stand::Clears(AfterClear::WrapUp) => true,
            Stand::Clears(AfterClear::Reply(_)) => owes,
            Stand::Clears(AfterClear::Again) => owes,
            Stand::At => false,
            Stand::InList(_) => false,
            Stand::Retires(..) => false,
            Stand::Restarts => false,
            Stand::Claims => false,
            Stand::Zeroes(..) => false,
            Stand::Announces(_) => false,
        }
    }

    /// Whether so many steps were made for the call that runs that it takes no more.
    pub fn is_spent(&self, fuel: u64) -> bool
        ensures { result ≡ is_spent fuel self.now.core }
    {
        !self.is_idle() && fuel <= self.state.running.steps
    }

    /// How many steps are left of so many for the call that runs.
    pub fn steps_left(&self, fuel: u64) -> u64
        ensures { result ≡ fuel - self.now.core.running.steps }
    {
        fuel.saturating_sub(self.state.running.steps)
    }

    /// Whether a check is the instruction at which the method stands.
    fn has_check(&self, prepared: &Prepared) -> bool
        ensures { result ≡ is_check_at (instr_in prepared.now.target self.now.core) }
    {
        let code = prepared
            .program()
            .code(self.state.running.call.op, self.state.hand.wrapup);
        is_check(code.at(self.state.hand.at))
    }

    /// Whether the entry stands at a check.
    fn stands_at_check(&self, prepared: &Prepared) -> bool
        ensures { result ≡ stands_at_check prepared.now.target self.now.core self.now.core.routine }
    {
        match self.state.stand {
            Stand::At => self.has_check(prepared),
            Stand::Claims => self.state.claim.is_none() && self.has_check(prepared),
            _ => false,
        }
    }

    /// The kind of the access that the entry makes next, where turns count it.
    pub fn kind_wanted(&self, prepared: &Prepared, setting: &Setting) -> Option<StepKind>
        requires belongs { BelongsTo prepared.now setting.now self.now.core }
        ensures { result ≡ kind_wanted prepared.now.target self.now.core }
    {
        setting.kept();
        let program = prepared.program();
        if self.stands_at_check(prepared) {
            return Some(StepKind::Check);
        }
        match self.pending_in(prepared.barred(), &program, setting) {
            None => None,
            Some(access) => kind_at(first_field(setting), pool_head(setting), access),
        }
    }

    /// The kind of the access that the entry makes next, where turns count it, with the conditions of `pending`.
    pub fn next_kind(&self, barred: &Barred, setting: &Setting) -> Option<StepKind>
        requires belongs { BelongsTo barred.now setting.now self.now.core }
        ensures { result ≡ kind_wanted barred.now.target self.now.core }
    {
        self.kind_wanted(&Prepared::new(barred), setting)
    }

    /// The caller's number, from 0 on.
    pub fn number(&self) -> u32
        ensures { result ≡ self.now.core.number }
    {
        self.state.number
    }

    /// The call that runs, or the last one.
    pub fn call(&self) -> Call
        ensures { result ≡ self.now.core.running.call }
    {
        self.state.running.call
    }

    /// Whether no call runs.
    pub fn is_idle(&self) -> bool
        ensures { result ≡ is_idle self.now.core.routine }
    {
        self.state.is_idle()
    }

    /// The replies in order.
    pub fn replies(&self) -> &[Reply]
        ensures { result.now ≡ map reply_of self.now.core.replies }
    {
        self.state.answers()
    }

    /// For how many more replies there is room.
    pub fn spare(&self) -> u32
        ensures { result ≡ self.now.room - length self.now.core.replies }
    {
        let room = self.room as usize;
        self.state.spare().min(room) as u32
    }

    /// How many of its checks failed; the count stays at 2^64 - 1.
    pub fn restarts(&self) -> u64
        ensures { result ≡ self.now.core.counts.restarts }
    {
        self.state.counts.restarts
    }

    /// How many slots it has claimed; the count stays at 2^64 - 1.
    pub fn claims(&self) -> u64
        ensures { result ≡ self.now.core.counts.claims }
    {
        self.state.counts.claims
    }
}
