//! What an entry becomes: clears, ends, local code and method runs, one small function for each definition.

ghost use Rattle.std.specs.Prelude.{◌≡◌, ◌<◌, ◌^◌, length, slice_get, is_some, IfSome};
ghost use Rattle.phase_pools.specs.Pools.{claim_begun};
ghost use Rattle.phase_pools.specs.Ranges.{HasOwn};
ghost use Rattle.caller_parts.specs.Codes.{code_shown, shown_at};
ghost use Rattle.caller_steps.specs.Entries.{is_at_access, code_in, instr_in, new_kind, new_number, cradle_of};
ghost use Rattle.caller_steps.specs.Asking.{NewsFit};
ghost use Rattle.caller_steps.specs.Belongs.{scheme_of};
ghost use Rattle.caller_steps.specs.Clearing.{restart_next, clear_next};
ghost use Rattle.caller_steps.specs.Stands.{is_stop, leaves};
ghost use Rattle.caller_parts.specs.declared.routine.Routine.TheVariants.{At, Clears};
ghost use Rattle.caller_steps.specs.After.{with_routine, replied, new_on, new_begun, then_goes, cleared, wrap_up_hand, list_ended, list_begun, plain_stop, wrap_up_stop, wrap_up_stopped, wrap_up_begun, announced_list, announced_stop, stop_at, stopped, settles, goes_on, first_spot, method_begun, restarted, generator_begun};

use crate::entry::Entry;
use crate::stand::Stand;
use caller_parts::local::run_target;
use caller_parts::operands::{cradle_number, kind_made};
use caller_parts::{
    AfterClear, AnnounceReason, Announcing, Code, MethodStart, Program, Reclamation, Reply, Step,
};
use norm_lang::registers::{Registers, number_at, put_count, starting_registers};
use norm_lang::text::{CasEntry, Instr};
use oa_words::shape::Shape;
use phase_pools::claim::ClaimState;
use phase_pools::stages::Scheme;

/// Whether a check or a guard stands at a place: a caller stops there at once.
#[inline(always)]
fn is_stop(code: Code, at: usize) -> bool
    ensures { result ≡ is_stop (slice_get (code_shown code.entry) at) }
{
    matches!(code.at(at), Some(Step::Check) | Some(Step::Guard(_)))
}

/// Whether an instruction is no access and no local code: a caller that comes to it goes on to something else.
#[inline(always)]
fn leaves(instr: &Instr) -> bool
    ensures { result ≡ leaves instr.now }
{
    matches!(
        instr,
        Instr::New(..) | Instr::Commit(_) | Instr::Return(_) | Instr::ReturnNone | Instr::Again
    )
}

/// A claim by a scheme, before its first access.
fn claim_begun(shape: &Shape, kind: u8, scheme: Scheme) -> ClaimState
    requires kind { kind < length shape.now.kinds }
    requires own { HasOwn shape.now scheme }
    ensures { result ≡ claim_begun shape.now kind scheme }
{
    match scheme {
        Scheme::Warned => ClaimState::begin(shape, kind as u32),
        Scheme::Announced(own) => ClaimState::begin_announced(shape, kind as u32, own),
    }
}

impl Entry {
    #[inline(always)]
    pub(crate) fn code_in<'a>(&self, program: &Program<'a>) -> Code<'a>
        ensures { code_shown result ≡ code_in program.now self.now.core }
    {
        program.code(self.running.call.op, self.hand.wrapup)
    }

    /// The code of the method, exactly if the caller stands at an access of it.
    #[inline(always)]
    pub fn code_at<'a>(&self, program: &Program<'a>) -> Option<Code<'a>>
        ensures stands { is_some result ≡ is_at_access self.now.core.routine }
        ensures code { IfSome result (λ code. (self.now.core.routine ≡ At) × (code_shown code ≡ code_in program.now self.now.core)) }
    {
        match self.stand {
            Stand::At => Some(self.code_in(program)),
            Stand::Claims if self.claim.is_none() => Some(self.code_in(program)),
            _ => None,
        }
    }

    /// The instruction at which the entry stands.
    pub(crate) fn instr_in<'a>(&self, program: &Program<'a>) -> Option<Step<'a>>
        ensures { shown_at result ≡ instr_in program.now self.now.core }
    {
        self.code_in(program).at(self.hand.at)
    }

    /// The kind of the node that the `new` makes at which the entry stands.
    fn new_kind(&self, program: &Program) -> u8
        ensures { result ≡ new_kind program.now self.now.core }
    {
        kind_made(self.instr_in(program))
    }

    /// The number of the cradle of the `new` at which the entry stands.
    pub(crate) fn new_number(&self, program: &Program) -> usize
        ensures { result ≡ new_number program.now self.now.core }
    {
        cradle_number(self.code_in(program), self.hand.at)
    }

    /// The slot in a cradle, 0 for none.
    pub(crate) fn cradle(&self, k: usize) -> u32
        ensures { result ≡ cradle_of self.now.core k }
    {
        self.cradles.get(k).copied().unwrap_or(0)
    }

    /// The caller stands at an access of its method. If it stands at one already, nothing is written.
    #[inline(always)]
    fn stand(&mut self)
        ensures { self.new ≡ record self.old { core = with_routine self.old.core At } }
    {
        if !matches!(self.stand, Stand::At) {
            self.stand = Stand::At;
        }
    }

    /// The reply is added, and the caller is idle.
    pub(crate) fn replied(&mut self, reply: Reply)
        requires { length self.old.core.replies < self.old.room }
        ensures { self.new ≡ record self.old { core = replied reply self.old.core } }
    {
        self.replies.push(self.running, reply);
        self.stand = Stand::Idle;
    }

    /// The next register to clear; none if the clear has ended.
    #[inline(always)]
    pub(crate) fn clear_next(&self, program: &Program, next: AfterClear) -> Option<u32>
        ensures { result ≡ clear_next program.now next self.now.core }
    {
        let spared = match next {
            AfterClear::WrapUp => program.kept_by(self.running.call.op),
            AfterClear::New | AfterClear::Reply(_) | AfterClear::Again => [false; 8],
        };
        self.hand.guards.next_to_clear(spared)
    }

    /// The same after a failed check.
    #[inline(always)]
    pub(crate) fn restart_next(&self, program: &Program) -> Option<u32>
        ensures { result ≡ restart_next program.now self.now.core }
    {
        let spared = if self.hand.wrapup {
            program.kept_by(self.running.call.op)
        } else {
            [false; 8]
        };
        self.hand.guards.next_to_clear(spared)
    }

    fn new_on(&mut self, scheme: Scheme, shape: &Shape, kind: u8, k: usize, slot: u32)
        requires kind { kind < length shape.now.kinds }
        requires own { HasOwn shape.now scheme }
        ensures { self.new ≡ record self.old { core = new_on scheme shape.now kind k slot self.old.core } }
    {
        if slot == 0 {
            self.claim = Some(claim_begun(shape, kind, scheme));
            self.stand = Stand::Claims;
        } else {
            self.stand = Stand::Zeroes(k, 0);
        }
    }

    /// At a `new`: the fields come next, or first the claim.
    fn new_begun(&mut self, scheme: Scheme, program: &Program, shape: &Shape)
        requires kinds { NewsFit program.now shape.now }
        requires own { HasOwn shape.now scheme }
        ensures { self.new ≡ record self.old { core = new_begun scheme program.now shape.now self.old.core } }
    {
        let (kind, k) = (self.new_kind(program), self.new_number(program));
        let slot = self.cradle(k);
        self.new_on(scheme, shape, kind, k, slot);
    }

    /// What follows a clear that has nothing left to clear.
    fn then_goes(&mut self, program: &Program, shape: &Shape, next: AfterClear)
        requires spare { length self.old.core.replies < self.old.room }
        requires kinds { NewsFit program.now shape.now }
        ensures { self.new ≡ record self.old { core = then_goes program.now shape.now next self.old.core } }
    {
        match next {
            AfterClear::New => self.new_begun(Scheme::Warned, program, shape),
            AfterClear::WrapUp => self.stand = Stand::LoadSeen(MethodStart::WrapUp),
            AfterClear::Reply(reply) => self.replied(reply),
            AfterClear::Again => self.stand = Stand::LoadSeen(MethodStart::Again),
        }
    }

    /// The caller clears a guard. If it stands at a clear already, only what follows the clear is written.
    fn stand_at_clear(&mut self, next: AfterClear)
        ensures { self.new ≡ record self.old { core = with_routine self.old.core (Clears next) } }
    {
        match &mut self.stand {
            Stand::Clears(goes) => *goes = next,
            _ => self.stand = Stand::Clears(next),
        }
    }

    /// Goes on with a clear, or with what follows it.
    pub(crate) fn cleared(&mut self, program: &Program, shape: &Shape, next: AfterClear)
        requires spare { length self.old.core.replies < self.old.room }
        requires kinds { NewsFit program.now shape.now }
        ensures { self.new ≡ record self.old { core = cleared program.now shape.now next self.old.core } }
    {
        match self.clear_next(program, next) {
            None => self.then_goes(program, shape, next),
            Some(_) => self.stand_at_clear(next),
        }
    }

    /// What a wrap-up starts with, so many exchanges of its list having succeeded.
    fn put_wrap_up(&mut self, made: usize)
        ensures { self.new ≡ record self.old { core = record self.old.core { hand = wrap_up_hand made self.old.core.hand } } }
    {
        put_count(&mut self.hand.registers, made as u64);
        self.hand.started = self.hand.registers;
        self.hand.wrapup = true;
        self.hand.at = 0;
        self.hand.accessed = false;
    }

    /// A list has ended, so many of its exchanges having succeeded.
    pub(crate) fn list_ended(&mut self, program: &Program, shape: &Shape, made: usize)
        requires spare { length self.old.core.replies < self.old.room }
        requires kinds { NewsFit program.now shape.now }
        ensures { self.new ≡ record self.old { core = list_ended program.now shape.now made self.old.core } }
    {
        self.put_wrap_up(made);
        self.cleared(program, shape, AfterClear::WrapUp);
    }

    fn list_begun(&mut self, program: &Program, shape: &Shape, exchanges: &[CasEntry])
        requires spare { length self.old.core.replies < self.old.room }
        requires kinds { NewsFit program.now shape.now }
        ensures { self.new ≡ record self.old { core = (list_begun program.now shape.now exchanges.now self.old.core).entry } }
    {
        if exchanges.is_empty() {
            self.list_ended(program, shape, 0);
        } else {
            self.stand = Stand::InList(0);
        }
    }

    /// The method stops at an instruction that is no access. It stands alone, so that the many stops at an access need no room for
    /// what a clear and a reply need.
    #[inline(never)]
    fn left(&mut self, program: &Program, shape: &Shape, instr: &Instr)
        requires spare { length self.old.core.replies < self.old.room }
        requires kinds { NewsFit program.now shape.now }
        ensures { self.new ≡ record self.old { core = (plain_stop program.now shape.now instr.now self.old.core).entry } }
    {
        match instr {
            Instr::New(..) => self.cleared(program, shape, AfterClear::New),
            Instr::Commit(exchanges) => self.list_begun(program, shape, exchanges.items()),
            Instr::Return(a) => {
                let number = number_at(&self.hand.registers, *a);
                self.cleared(program, shape, AfterClear::Reply(Reply::Number(number)));
            }
            Instr::ReturnNone => self.cleared(program, shape, AfterClear::Reply(Reply::Nothing)),
            Instr::Again => self.cleared(program, shape, AfterClear::Again),
            _ => self.stand(),
        }
    }

    /// A wrap-up under epochs stops at an instruction.
    fn wrap_up_stop(&mut self, instr: &Instr)
        ensures { self.new ≡ record self.old { core = (wrap_up_stop instr.now self.old.core).entry } }
    {
        match instr {
            Instr::Return(a) => {
                let number = number_at(&self.hand.registers, *a);
                self.stand = Stand::Announces(Announcing::Leaves(Reply::Number(number)));
            }
            Instr::ReturnNone => self.stand = Stand::Announces(Announcing::Leaves(Reply::Nothing)),
            Instr::Again => self.stand = Stand::Announces(Announcing::Loads(AnnounceReason::Again)),
            _ => self.stand(),
        }
    }

    fn wrap_up_stopped(&mut self, program: &Program, code: Code)
        requires code { code_shown code ≡ code_in program.now self.old.core }
        ensures { self.new ≡ record self.old { core = (wrap_up_stopped program.now self.old.core).entry } }
    {
        match code.at(self.hand.at) {
            Some(Step::Plain(instr)) => self.wrap_up_stop(instr),
            Some(Step::Check) | Some(Step::Guard(_)) | None => self.stand(),
        }
    }

    /// A list has ended under epochs, so many of its exchanges having succeeded: the wrap-up runs from its start.
    pub(crate) fn wrap_up_begun(&mut self, program: &Program, made: usize)
        ensures { self.new ≡ record self.old { core = (wrap_up_begun program.now made self.old.core).entry } }
    {
        self.put_wrap_up(made);
        let code = self.code_in(program);
        self.hand.at = run_target(code, 0, &mut self.hand.registers);
        self.wrap_up_stopped(program, code);
    }

    fn announced_list(&mut self, program: &Program, exchanges: &[CasEntry])
        ensures { self.new ≡ record self.old { core = (announced_list program.now exchanges.now self.old.core).entry } }
    {
        if exchanges.is_empty() {
            self.wrap_up_begun(program, 0);
            return;
        }
        self.stand = Stand::InList(0);
    }

    /// A method under epochs stops at an instruction.
    fn announced_stop(&mut self, program: &Program, shape: &Shape, instr: &Instr)
        requires kinds { NewsFit program.now shape.now }
        requires number { self.old.core.number < shape.now.callers }
        ensures { self.new ≡ record self.old { core = (announced_stop program.now shape.now instr.now self.old.core).entry } }
    {
        match instr {
            Instr::New(..) => self.new_begun(Scheme::Announced(self.number), program, shape),
            Instr::Commit(exchanges) => self.announced_list(program, exchanges.items()),
            _ => self.wrap_up_stop(instr),
        }
    }

    /// The method stops at an instruction that is no access, by the scheme.
    #[inline(never)]
    fn left_by(&mut self, by: Reclamation, program: &Program, shape: &Shape, instr: &Instr)
        requires spare { length self.old.core.replies < self.old.room }
        requires kinds { NewsFit program.now shape.now }
        requires own { HasOwn shape.now (scheme_of by self.old.core.number) }
        ensures { self.new ≡ record self.old { core = (stop_at by program.now shape.now instr.now self.old.core).entry } }
    {
        match by {
            Reclamation::Optimistic => self.left(program, shape, instr),
            Reclamation::Epochs => self.announced_stop(program, shape, instr),
        }
    }

    #[inline(always)]
    #[tactic(auto, using(crate::proofs::Standing::stands_there))]
    fn stop_at(&mut self, by: Reclamation, program: &Program, shape: &Shape, instr: &Instr)
        requires spare { length self.old.core.replies < self.old.room }
        requires kinds { NewsFit program.now shape.now }
        requires own { HasOwn shape.now (scheme_of by self.old.core.number) }
        ensures { self.new ≡ record self.old { core = (stop_at by program.now shape.now instr.now self.old.core).entry } }
    {
        if leaves(instr) {
            self.left_by(by, program, shape, instr);
        } else {
            self.stand();
        }
    }

    #[inline(always)]
    fn stopped(&mut self, by: Reclamation, program: &Program, shape: &Shape, code: Code)
        requires spare { length self.old.core.replies < self.old.room }
        requires kinds { NewsFit program.now shape.now }
        requires own { HasOwn shape.now (scheme_of by self.old.core.number) }
        requires code { code_shown code ≡ code_in program.now self.old.core }
        ensures { self.new ≡ record self.old { core = (stopped by program.now shape.now self.old.core).entry } }
    {
        match code.at(self.hand.at) {
            Some(Step::Plain(instr)) => self.stop_at(by, program, shape, instr),
            Some(Step::Check) | Some(Step::Guard(_)) | None => self.stand(),
        }
    }

    /// Local code of the method, which is given, from an instruction on.
    pub(crate) fn settle(
        &mut self,
        by: Reclamation,
        program: &Program,
        shape: &Shape,
        code: Code,
        at: usize,
    )
        requires spare { length self.old.core.replies < self.old.room }
        requires kinds { NewsFit program.now shape.now }
        requires own { HasOwn shape.now (scheme_of by self.old.core.number) }
        requires code { code_shown code ≡ code_in program.now self.old.core }
        ensures { self.new ≡ record self.old { core = (settles by program.now shape.now (record { at = at; registers = self.old.core.hand.registers }) self.old.core).entry } }
    {
        self.hand.at = run_target(code, at, &mut self.hand.registers);
        self.stopped(by, program, shape, code);
    }

    /// Local code of the method, which is given, from the next instruction on.
    #[inline(always)]
    pub(crate) fn go_on_in(&mut self, by: Reclamation, program: &Program, shape: &Shape, code: Code)
        requires spare { length self.old.core.replies < self.old.room }
        requires kinds { NewsFit program.now shape.now }
        requires own { HasOwn shape.now (scheme_of by self.old.core.number) }
        requires near { self.old.core.hand.at < 2 ^ 62 }
        requires code { code_shown code ≡ code_in program.now self.old.core }
        ensures { self.new ≡ record self.old { core = (goes_on by program.now shape.now self.old.core.hand.registers self.old.core).entry } }
    {
        let next = self.hand.at + 1;
        if is_stop(code, next) {
            self.hand.at = next;
            self.stand();
        } else {
            self.settle(by, program, shape, code, next);
        }
    }

    /// Local code from the next instruction on.
    pub(crate) fn go_on(&mut self, by: Reclamation, program: &Program, shape: &Shape)
        requires spare { length self.old.core.replies < self.old.room }
        requires kinds { NewsFit program.now shape.now }
        requires own { HasOwn shape.now (scheme_of by self.old.core.number) }
        requires near { self.old.core.hand.at < 2 ^ 62 }
        ensures { self.new ≡ record self.old { core = (goes_on by program.now shape.now self.old.core.hand.registers self.old.core).entry } }
    {
        let code = self.code_in(program);
        self.go_on_in(by, program, shape, code);
    }

    /// Puts the registers with which a method starts.
    fn put_first_registers(&mut self, wrapup: bool)
        ensures { self.new ≡ record self.old { core = record self.old.core { hand = record self.old.core.hand { registers = (first_spot wrapup self.old.core.running.call.args self.old.core.hand.started).registers } } } }
    {
        if wrapup {
            self.hand.registers = self.hand.started;
        } else {
            self.hand.registers = starting_registers(&self.running.call.args);
        }
    }

    /// A method runs from its start.
    pub(crate) fn begin_method(&mut self, program: &Program, shape: &Shape, wrapup: bool)
        requires spare { length self.old.core.replies < self.old.room }
        requires kinds { NewsFit program.now shape.now }
        ensures { self.new ≡ record self.old { core = (method_begun program.now shape.now wrapup self.old.core).entry } }
    {
        self.put_first_registers(wrapup);
        self.hand.wrapup = wrapup;
        self.hand.accessed = false;
        let code = self.code_in(program);
        self.settle(Reclamation::Optimistic, program, shape, code, 0);
    }

    /// The phase was announced: the generator runs from its start.
    pub(crate) fn begin_generator(&mut self, program: &Program, shape: &Shape)
        requires spare { length self.old.core.replies < self.old.room }
        requires kinds { NewsFit program.now shape.now }
        requires number { self.old.core.number < shape.now.callers }
        ensures { self.new ≡ record self.old { core = (generator_begun program.now shape.now self.old.core).entry } }
    {
        self.put_first_registers(false);
        self.hand.wrapup = false;
        self.hand.accessed = false;
        let code = self.code_in(program);
        self.settle(Reclamation::Epochs, program, shape, code, 0);
    }

    /// Goes on with the clear of a restart, or the method runs again.
    pub(crate) fn restarted(&mut self, program: &Program, shape: &Shape)
        requires spare { length self.old.core.replies < self.old.room }
        requires kinds { NewsFit program.now shape.now }
        ensures { self.new ≡ record self.old { core = (restarted program.now shape.now self.old.core).entry } }
    {
        match self.restart_next(program) {
            None => self.begin_method(program, shape, self.hand.wrapup),
            Some(_) => self.stand = Stand::Restarts,
        }
    }
}
