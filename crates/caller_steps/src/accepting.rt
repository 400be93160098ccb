//! An entry after its wanted access found a word: one small function for each routine state and each instruction.

ghost use Rattle.std.specs.Prelude.{◌≡◌, ◌<◌, ◌^◌, length, slice_get};
ghost use Rattle.phase_pools.specs.Ranges.{HasOwn};
ghost use Rattle.caller_parts.specs.Codes.{code_shown, shown_at};
ghost use Rattle.caller_parts.specs.declared.routine.Routine.TheVariants.{At};
ghost use Rattle.caller_steps.specs.Entries.{code_in, instr_in};
ghost use Rattle.caller_parts.specs.Operands.{list_of, AreSlots};
ghost use Rattle.caller_steps.specs.Clearing.{restart_next, clear_next, unguarded};
ghost use Rattle.caller_steps.specs.After.{seen_loaded, with_restart, check_passed, check_failed, checked, guarded, loaded, list_on, list_goes, onward_goes, retires_then, cas_ended, cas_made, plain_accepted, checked_by, guarded_by, instr_accepted, with_published, list_failed, entry_made, list_accepted, restart_cleared, then_cleared, claim_counted, slot_claimed, slot_swept, slot_gained, claim_ended, node_made, zeroed, announced, after};
ghost use Rattle.caller_steps.specs.Belongs.{scheme_of};
ghost use Rattle.caller_steps.specs.Asking.{NewsFit, IsNear, IsRegister, InstrAccepts, CanAccept};

use crate::entry::{Entry, one_more};
use crate::stand::Stand;
use caller_parts::operands::{
    empty_cradles, exchange_at, kind_made, list_of, put_cradle, put_new, put_word, slot_in,
    succeeds, to_retire,
};
use caller_parts::{
    AfterClear, AfterRetire, AnnounceReason, Announcing, Code, MethodStart, Program, Reclamation,
    Reply, Setting, Step,
};
use norm_lang::text::{CasEntry, Instr, Reg};
use oa_words::shape::Shape;
use phase_pools::access::ClaimEnd;
use phase_pools::retire::RetireState;

impl Entry {
    /// The caller's own warning was loaded.
    fn seen_loaded(&mut self, program: &Program, shape: &Shape, why: MethodStart, word: u64)
        requires spare { length self.old.core.replies < self.old.room }
        requires kinds { NewsFit program.now shape.now }
        ensures { self.new ≡ record self.old { core = (seen_loaded program.now shape.now why word self.old.core).entry } }
    {
        self.hand.seen = word;
        match why {
            MethodStart::Begin | MethodStart::Again => self.begin_method(program, shape, false),
            MethodStart::WrapUp => self.begin_method(program, shape, true),
        }
    }

    #[inline(always)]
    fn check_passed(&mut self, program: &Program, shape: &Shape, code: Code)
        requires spare { length self.old.core.replies < self.old.room }
        requires kinds { NewsFit program.now shape.now }
        requires near { self.old.core.hand.at < 2 ^ 62 }
        requires code { code_shown code ≡ code_in program.now self.old.core }
        ensures { self.new ≡ record self.old { core = (check_passed program.now shape.now self.old.core).entry } }
    {
        self.hand.guards.pass_check();
        self.go_on_in(Reclamation::Optimistic, program, shape, code);
    }

    fn count_restart(&mut self)
        ensures { self.new ≡ record self.old { core = with_restart self.old.core } }
    {
        self.counts.restarts = one_more(self.counts.restarts);
    }

    #[inline(never)]
    fn check_failed(&mut self, program: &Program, shape: &Shape, found: u64)
        requires spare { length self.old.core.replies < self.old.room }
        requires kinds { NewsFit program.now shape.now }
        ensures { self.new ≡ record self.old { core = (check_failed program.now shape.now found self.old.core).entry } }
    {
        self.count_restart();
        self.hand.seen = found;
        self.hand.accessed = false;
        self.restarted(program, shape);
    }

    #[inline(always)]
    fn checked(&mut self, program: &Program, shape: &Shape, code: Code, word: u64)
        requires spare { length self.old.core.replies < self.old.room }
        requires kinds { NewsFit program.now shape.now }
        requires near { self.old.core.hand.at < 2 ^ 62 }
        requires code { code_shown code ≡ code_in program.now self.old.core }
        ensures { self.new ≡ record self.old { core = (checked program.now shape.now word self.old.core).entry } }
    {
        if word == self.hand.seen {
            self.check_passed(program, shape, code);
        } else {
            self.check_failed(program, shape, word);
        }
    }

    /// The slot of a register was stored in its hazard.
    #[inline(always)]
    fn guarded(&mut self, program: &Program, shape: &Shape, code: Code, register: u8)
        requires spare { length self.old.core.replies < self.old.room }
        requires kinds { NewsFit program.now shape.now }
        requires near { self.old.core.hand.at < 2 ^ 62 }
        requires slots { AreSlots self.old.core.hand.registers }
        requires register { register < 8 }
        requires code { code_shown code ≡ code_in program.now self.old.core }
        ensures { self.new ≡ record self.old { core = (guarded program.now shape.now (Reg.Ref register) self.old.core).entry } }
    {
        let slot = slot_in(&self.hand.registers, Reg::Ref(register));
        self.hand.guards.put(register as u32, slot);
        self.go_on_in(Reclamation::Optimistic, program, shape, code);
    }

    /// A check under epochs, whose code has none, does nothing.
    #[inline(always)]
    fn checked_by(
        &mut self,
        by: Reclamation,
        program: &Program,
        shape: &Shape,
        code: Code,
        word: u64,
    )
        requires spare { length self.old.core.replies < self.old.room }
        requires kinds { NewsFit program.now shape.now }
        requires near { self.old.core.hand.at < 2 ^ 62 }
        requires code { code_shown code ≡ code_in program.now self.old.core }
        ensures { self.new ≡ record self.old { core = (checked_by by program.now shape.now word self.old.core).entry } }
    {
        match by {
            Reclamation::Optimistic => self.checked(program, shape, code, word),
            Reclamation::Epochs => {}
        }
    }

    /// Nor does a guard.
    #[inline(always)]
    fn guarded_by(
        &mut self,
        by: Reclamation,
        program: &Program,
        shape: &Shape,
        code: Code,
        register: u8,
    )
        requires spare { length self.old.core.replies < self.old.room }
        requires kinds { NewsFit program.now shape.now }
        requires near { self.old.core.hand.at < 2 ^ 62 }
        requires slots { AreSlots self.old.core.hand.registers }
        requires register { register < 8 }
        requires code { code_shown code ≡ code_in program.now self.old.core }
        ensures { self.new ≡ record self.old { core = (guarded_by by program.now shape.now (Reg.Ref register) self.old.core).entry } }
    {
        match by {
            Reclamation::Optimistic => self.guarded(program, shape, code, register),
            Reclamation::Epochs => {}
        }
    }

    /// A word of the text was loaded into a register.
    #[inline(always)]
    fn loaded(
        &mut self,
        by: Reclamation,
        program: &Program,
        shape: &Shape,
        code: Code,
        register: Reg,
        word: u64,
    )
        requires spare { length self.old.core.replies < self.old.room }
        requires kinds { NewsFit program.now shape.now }
        requires own { HasOwn shape.now (scheme_of by self.old.core.number) }
        requires near { self.old.core.hand.at < 2 ^ 62 }
        requires code { code_shown code ≡ code_in program.now self.old.core }
        ensures { self.new ≡ record self.old { core = (loaded by program.now shape.now register word self.old.core).entry } }
    {
        put_word(&mut self.hand.registers, register, word);
        self.hand.accessed = self.hand.wrapup;
        self.go_on_in(by, program, shape, code);
    }

    /// After the exchange of a list with this number.
    fn list_on(&mut self, program: &Program, shape: &Shape, k: usize)
        requires spare { length self.old.core.replies < self.old.room }
        requires kinds { NewsFit program.now shape.now }
        requires near { k < 2 ^ 62 }
        ensures { self.new ≡ record self.old { core = list_on program.now shape.now k self.old.core } }
    {
        if k + 1 < list_of(self.instr_in(program)).len() {
            self.stand = Stand::InList(k + 1);
        } else {
            self.list_ended(program, shape, k + 1);
        }
    }

    /// The same by the scheme.
    fn list_goes(&mut self, by: Reclamation, program: &Program, shape: &Shape, k: usize)
        requires spare { length self.old.core.replies < self.old.room }
        requires kinds { NewsFit program.now shape.now }
        requires near { k < 2 ^ 62 }
        ensures { self.new ≡ record self.old { core = (list_goes by program.now shape.now k self.old.core).entry } }
    {
        match by {
            Reclamation::Optimistic => self.list_on(program, shape, k),
            Reclamation::Epochs => {
                if k + 1 < list_of(self.instr_in(program)).len() {
                    self.stand = Stand::InList(k + 1);
                } else {
                    self.wrap_up_begun(program, k + 1);
                }
            }
        }
    }

    fn onward_goes(
        &mut self,
        by: Reclamation,
        program: &Program,
        shape: &Shape,
        onward: AfterRetire,
    )
        requires spare { length self.old.core.replies < self.old.room }
        requires kinds { NewsFit program.now shape.now }
        requires own { HasOwn shape.now (scheme_of by self.old.core.number) }
        requires near { self.old.core.hand.at < 2 ^ 62 }
        requires few { IsNear onward }
        ensures { self.new ≡ record self.old { core = (onward_goes by program.now shape.now onward self.old.core).entry } }
    {
        match onward {
            AfterRetire::Next => self.go_on(by, program, shape),
            AfterRetire::List(k) => self.list_goes(by, program, shape, k),
        }
    }

    /// After an exchange that succeeded; slot 0 isn't retired.
    fn retires_then(
        &mut self,
        by: Reclamation,
        program: &Program,
        shape: &Shape,
        onward: AfterRetire,
        slot: u32,
    )
        requires spare { length self.old.core.replies < self.old.room }
        requires kinds { NewsFit program.now shape.now }
        requires own { HasOwn shape.now (scheme_of by self.old.core.number) }
        requires near { self.old.core.hand.at < 2 ^ 62 }
        requires few { IsNear onward }
        ensures { self.new ≡ record self.old { core = (retires_then by program.now shape.now onward slot self.old.core).entry } }
    {
        if slot == 0 {
            self.onward_goes(by, program, shape, onward);
        } else {
            self.stand = Stand::Retires(RetireState::begin(slot), onward);
        }
    }

    fn cas_ended(
        &mut self,
        by: Reclamation,
        program: &Program,
        shape: &Shape,
        exchange: &CasEntry,
        failed: u16,
        word: u64,
    )
        requires spare { length self.old.core.replies < self.old.room }
        requires kinds { NewsFit program.now shape.now }
        requires own { HasOwn shape.now (scheme_of by self.old.core.number) }
        requires near { self.old.core.hand.at < 2 ^ 62 }
        requires slots { AreSlots self.old.core.hand.registers }
        ensures { self.new ≡ record self.old { core = (cas_ended by program.now shape.now exchange.now failed word self.old.core).entry } }
    {
        if succeeds(exchange, &self.hand.registers, word) {
            let slot = to_retire(exchange.retire, &self.hand.registers);
            self.retires_then(by, program, shape, AfterRetire::Next, slot);
        } else {
            let code = self.code_in(program);
            self.settle(by, program, shape, code, failed as usize);
        }
    }

    /// An auxiliary exchange was made.
    #[inline(never)]
    fn cas_made(
        &mut self,
        by: Reclamation,
        program: &Program,
        shape: &Shape,
        exchange: &CasEntry,
        failed: u16,
        word: u64,
    )
        requires spare { length self.old.core.replies < self.old.room }
        requires kinds { NewsFit program.now shape.now }
        requires own { HasOwn shape.now (scheme_of by self.old.core.number) }
        requires near { self.old.core.hand.at < 2 ^ 62 }
        requires slots { AreSlots self.old.core.hand.registers }
        ensures { self.new ≡ record self.old { core = (cas_made by program.now shape.now exchange.now failed word self.old.core).entry } }
    {
        self.hand.accessed = self.hand.wrapup;
        self.cas_ended(by, program, shape, exchange, failed, word);
    }

    #[inline(always)]
    fn plain_accepted(
        &mut self,
        by: Reclamation,
        program: &Program,
        shape: &Shape,
        code: Code,
        instr: &Instr,
        word: u64,
    )
        requires spare { length self.old.core.replies < self.old.room }
        requires kinds { NewsFit program.now shape.now }
        requires own { HasOwn shape.now (scheme_of by self.old.core.number) }
        requires near { self.old.core.hand.at < 2 ^ 62 }
        requires slots { AreSlots self.old.core.hand.registers }
        requires code { code_shown code ≡ code_in program.now self.old.core }
        ensures { self.new ≡ record self.old { core = (plain_accepted by program.now shape.now instr.now word self.old.core).entry } }
    {
        match instr {
            Instr::LoadRoot(d, _) | Instr::LoadPick(d, _, _, _) | Instr::LoadField(d, _, _) => {
                self.loaded(by, program, shape, code, *d, word);
            }
            Instr::Put(_, _, _) => self.go_on_in(by, program, shape, code),
            Instr::Cas(exchange, failed) => {
                self.cas_made(by, program, shape, exchange, *failed, word);
            }
            _ => {}
        }
    }

    #[inline(always)]
    fn instr_accepted(
        &mut self,
        by: Reclamation,
        program: &Program,
        shape: &Shape,
        code: Code,
        instr: Option<Step>,
        word: u64,
    )
        requires code { code_shown code ≡ code_in program.now self.old.core }
        requires instr { shown_at instr ≡ instr_in program.now self.old.core }
        requires spare { length self.old.core.replies < self.old.room }
        requires kinds { NewsFit program.now shape.now }
        requires own { HasOwn shape.now (scheme_of by self.old.core.number) }
        requires near { self.old.core.hand.at < 2 ^ 62 }
        requires slots { AreSlots self.old.core.hand.registers }
        requires can { InstrAccepts (instr_in program.now self.old.core) }
        ensures { self.new ≡ record self.old { core = (instr_accepted by program.now shape.now (instr_in program.now self.old.core) word self.old.core).entry } }
    {
        match instr {
            None => {}
            Some(Step::Plain(instr)) => {
                self.plain_accepted(by, program, shape, code, instr, word);
            }
            Some(Step::Check) => self.checked_by(by, program, shape, code, word),
            Some(Step::Guard(Reg::Ref(r))) => self.guarded_by(by, program, shape, code, r),
            Some(Step::Guard(Reg::Num(_))) => {}
        }
    }

    /// The same of the instruction at which the entry stands.
    fn here_accepted(&mut self, by: Reclamation, program: &Program, shape: &Shape, word: u64)
        requires spare { length self.old.core.replies < self.old.room }
        requires kinds { NewsFit program.now shape.now }
        requires own { HasOwn shape.now (scheme_of by self.old.core.number) }
        requires near { self.old.core.hand.at < 2 ^ 62 }
        requires slots { AreSlots self.old.core.hand.registers }
        requires can { InstrAccepts (instr_in program.now self.old.core) }
        ensures { self.new ≡ record self.old { core = (instr_accepted by program.now shape.now (instr_in program.now self.old.core) word self.old.core).entry } }
    {
        let code = self.code_in(program);
        self.instr_accepted(by, program, shape, code, code.at(self.hand.at), word);
    }

    /// Each cradle that holds the slot of the operand is emptied.
    fn publish(&mut self, operand: Reg)
        requires { AreSlots self.old.core.hand.registers }
        ensures { self.new ≡ record self.old { core = with_published operand self.old.core } }
    {
        if let Reg::Ref(_) = operand {
            let slot = slot_in(&self.hand.registers, operand);
            empty_cradles(&mut self.cradles, slot);
        }
    }

    /// A list ends with the first of its exchanges that fails.
    fn list_failed(&mut self, by: Reclamation, program: &Program, shape: &Shape, k: usize)
        requires spare { length self.old.core.replies < self.old.room }
        requires kinds { NewsFit program.now shape.now }
        ensures { self.new ≡ record self.old { core = (list_failed by program.now shape.now k self.old.core).entry } }
    {
        match by {
            Reclamation::Optimistic => self.list_ended(program, shape, k),
            Reclamation::Epochs => self.wrap_up_begun(program, k),
        }
    }

    /// An exchange of a list was made.
    fn entry_made(
        &mut self,
        by: Reclamation,
        program: &Program,
        shape: &Shape,
        k: usize,
        exchange: &CasEntry,
        word: u64,
    )
        requires spare { length self.old.core.replies < self.old.room }
        requires kinds { NewsFit program.now shape.now }
        requires own { HasOwn shape.now (scheme_of by self.old.core.number) }
        requires near { self.old.core.hand.at < 2 ^ 62 }
        requires slots { AreSlots self.old.core.hand.registers }
        requires few { k < 2 ^ 62 }
        ensures { self.new ≡ record self.old { core = (entry_made by program.now shape.now k exchange.now word self.old.core).entry } }
    {
        if succeeds(exchange, &self.hand.registers, word) {
            let slot = to_retire(exchange.retire, &self.hand.registers);
            self.publish(exchange.replacement);
            self.retires_then(by, program, shape, AfterRetire::List(k), slot);
        } else {
            self.list_failed(by, program, shape, k);
        }
    }

    fn list_accepted(
        &mut self,
        by: Reclamation,
        program: &Program,
        shape: &Shape,
        k: usize,
        word: u64,
    )
        requires spare { length self.old.core.replies < self.old.room }
        requires kinds { NewsFit program.now shape.now }
        requires own { HasOwn shape.now (scheme_of by self.old.core.number) }
        requires near { self.old.core.hand.at < 2 ^ 62 }
        requires slots { AreSlots self.old.core.hand.registers }
        requires few { k < 2 ^ 62 }
        ensures { self.new ≡ record self.old { core = (list_accepted by program.now shape.now k (slice_get (list_of (instr_in program.now self.old.core)) k) word self.old.core).entry } }
    {
        if let Some(exchange) = exchange_at(list_of(self.instr_in(program)), k) {
            self.entry_made(by, program, shape, k, exchange, word);
        }
    }

    fn cleared_at(&mut self, register: Option<u32>)
        requires { IsRegister register }
        ensures { self.new ≡ record self.old { core = record self.old.core { hand = unguarded register self.old.core.hand } } }
    {
        if let Some(r) = register {
            self.hand.guards.put(r, 0);
        }
    }

    fn restart_cleared(&mut self, program: &Program, shape: &Shape)
        requires spare { length self.old.core.replies < self.old.room }
        requires kinds { NewsFit program.now shape.now }
        requires register { IsRegister (restart_next program.now self.old.core) }
        ensures { self.new ≡ record self.old { core = (restart_cleared program.now shape.now self.old.core).entry } }
    {
        let register = self.restart_next(program);
        self.cleared_at(register);
        self.restarted(program, shape);
    }

    fn then_cleared(&mut self, program: &Program, shape: &Shape, next: AfterClear)
        requires spare { length self.old.core.replies < self.old.room }
        requires kinds { NewsFit program.now shape.now }
        requires register { IsRegister (clear_next program.now next self.old.core) }
        ensures { self.new ≡ record self.old { core = then_cleared program.now shape.now next self.old.core } }
    {
        let register = self.clear_next(program, next);
        self.cleared_at(register);
        self.cleared(program, shape, next);
    }

    /// A claim is counted if its exchange takes the slot.
    fn count_claim(&mut self, takes: bool)
        ensures { self.new ≡ record self.old { core = claim_counted takes self.old.core } }
    {
        if takes {
            self.counts.claims = one_more(self.counts.claims);
        }
    }

    /// A claimed slot goes into the cradle of the `new`.
    fn slot_claimed(&mut self, program: &Program, slot: u32)
        ensures { self.new ≡ record self.old { core = slot_claimed program.now slot self.old.core } }
    {
        let k = self.new_number(program);
        put_cradle(&mut self.cradles, k, slot);
        self.stand = Stand::Zeroes(k, 0);
    }

    /// And if the caller has swept for it under epochs, it announces anew, and begins its generator again.
    fn slot_swept(&mut self, program: &Program, slot: u32)
        ensures { self.new ≡ record self.old { core = slot_swept program.now slot self.old.core } }
    {
        self.slot_claimed(program, slot);
        self.count_restart();
        self.stand = Stand::Announces(Announcing::Loads(AnnounceReason::Swept));
    }

    fn slot_gained(&mut self, by: Reclamation, program: &Program, sweeps: u8, slot: u32)
        ensures { self.new ≡ record self.old { core = slot_gained by program.now sweeps slot self.old.core } }
    {
        match by {
            Reclamation::Optimistic => self.slot_claimed(program, slot),
            Reclamation::Epochs => {
                if sweeps == 0 {
                    self.slot_claimed(program, slot);
                } else {
                    self.slot_swept(program, slot);
                }
            }
        }
    }

    fn claim_ended(&mut self, by: Reclamation, program: &Program, sweeps: u8, end: ClaimEnd)
        requires { length self.old.core.replies < self.old.room }
        ensures { self.new ≡ record self.old { core = (claim_ended by program.now sweeps end self.old.core).entry } }
    {
        match end {
            ClaimEnd::Claimed(slot) => self.slot_gained(by, program, sweeps, slot),
            ClaimEnd::Full => self.replied(Reply::Full),
            ClaimEnd::PhasesOver(p) => self.replied(Reply::Phases(p)),
        }
    }

    /// The last field of a `new` was stored.
    fn node_made(&mut self, by: Reclamation, program: &Program, shape: &Shape, slot: u32)
        requires spare { length self.old.core.replies < self.old.room }
        requires kinds { NewsFit program.now shape.now }
        requires own { HasOwn shape.now (scheme_of by self.old.core.number) }
        requires near { self.old.core.hand.at < 2 ^ 62 }
        ensures { self.new ≡ record self.old { core = (node_made by program.now shape.now slot self.old.core).entry } }
    {
        let code = self.code_in(program);
        put_new(&mut self.hand.registers, code.at(self.hand.at), slot);
        self.go_on_in(by, program, shape, code);
    }

    fn zeroed(&mut self, by: Reclamation, program: &Program, shape: &Shape, k: usize, field: u32)
        requires spare { length self.old.core.replies < self.old.room }
        requires kinds { NewsFit program.now shape.now }
        requires own { HasOwn shape.now (scheme_of by self.old.core.number) }
        requires near { self.old.core.hand.at < 2 ^ 62 }
        requires field { field < shape.now.fields }
        ensures { self.new ≡ record self.old { core = (zeroed by program.now shape.now k field self.old.core).entry } }
    {
        shape.kept();
        let fields = program.field_count(kind_made(self.instr_in(program)));
        if field as usize + 1 < fields {
            self.stand = Stand::Zeroes(k, field + 1);
        } else {
            self.node_made(by, program, shape, self.cradle(k));
        }
    }

    /// The phase was loaded; or it, or 0, was stored in the caller's own warning word.
    fn announced(&mut self, program: &Program, shape: &Shape, announcing: Announcing, word: u64)
        requires spare { length self.old.core.replies < self.old.room }
        requires kinds { NewsFit program.now shape.now }
        requires number { self.old.core.number < shape.now.callers }
        ensures { self.new ≡ record self.old { core = (announced program.now shape.now announcing word self.old.core).entry } }
    {
        match announcing {
            Announcing::Loads(why) => self.stand = Stand::Announces(Announcing::Stores(why, word)),
            Announcing::Stores(_, _) => self.begin_generator(program, shape),
            Announcing::Leaves(reply) => self.replied(reply),
        }
    }

    /// `accept` of a caller that stands at an access of its method, whose code and instruction are given.
    #[inline(always)]
    #[tactic(auto, using(crate::proofs::Standing::after_at))]
    pub fn accept_at(
        &mut self,
        program: &Program,
        setting: &Setting,
        code: Code,
        instr: Option<Step>,
        word: u64,
    )
        requires spare { length self.old.core.replies < self.old.room }
        requires kinds { NewsFit program.now setting.now.sizes }
        requires caller { self.old.core.number < setting.now.sizes.callers }
        requires near { self.old.core.hand.at < 2 ^ 62 }
        requires slots { AreSlots self.old.core.hand.registers }
        requires stands { self.old.core.routine ≡ At }
        requires code { code_shown code ≡ code_in program.now self.old.core }
        requires instr { shown_at instr ≡ instr_in program.now self.old.core }
        requires can { CanAccept program.now setting.now self.old.core word self.old.core.routine }
        ensures { self.new ≡ record self.old { core = after program.now setting.now self.old.core word } }
    {
        let by = setting.reclamation();
        self.running.steps = one_more(self.running.steps);
        self.instr_accepted(by, program, setting.shape(), code, instr, word);
    }

    /// The entry after its wanted access found a word. It runs, with room for a reply, its registers name slots, and the word
    /// is one that its routine may be told.
    #[tactic(auto, unfolding(crate::specs::After::after))]
    #[inline(always)]
    pub fn accept(&mut self, program: &Program, setting: &Setting, word: u64)
        requires spare { length self.old.core.replies < self.old.room }
        requires kinds { NewsFit program.now setting.now.sizes }
        requires caller { self.old.core.number < setting.now.sizes.callers }
        requires near { self.old.core.hand.at < 2 ^ 62 }
        requires slots { AreSlots self.old.core.hand.registers }
        requires can { CanAccept program.now setting.now self.old.core word self.old.core.routine }
        ensures { self.new ≡ record self.old { core = after program.now setting.now self.old.core word } }
    {
        let (by, shape) = (setting.reclamation(), setting.shape());
        self.running.steps = one_more(self.running.steps);
        match &mut self.stand {
            Stand::Idle => {}
            &mut Stand::LoadSeen(why) => self.seen_loaded(program, shape, why, word),
            Stand::At => self.here_accepted(by, program, shape, word),
            &mut Stand::InList(k) => self.list_accepted(by, program, shape, k, word),
            Stand::Retires(retirement, onward) => {
                let onward = *onward;
                if retirement.accept(shape, word) {
                    self.stand = Stand::At;
                    self.onward_goes(by, program, shape, onward);
                }
            }
            Stand::Restarts => self.restart_cleared(program, shape),
            &mut Stand::Clears(next) => self.then_cleared(program, shape, next),
            Stand::Claims => match &mut self.claim {
                Some(claim) => {
                    let takes = claim.takes(shape, word);
                    let ended = claim.accept(shape, setting.last_phase(), word);
                    let sweeps = claim.sweeps();
                    self.count_claim(takes);
                    if let Some(end) = ended {
                        self.stand = Stand::At;
                        self.claim_ended(by, program, sweeps, end);
                    }
                }
                None => self.here_accepted(by, program, shape, word),
            },
            &mut Stand::Zeroes(k, field) => self.zeroed(by, program, shape, k, field),
            &mut Stand::Announces(announcing) => self.announced(program, shape, announcing, word),
        }
    }
}
