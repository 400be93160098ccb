//! The one access that an entry makes next.

ghost use Rattle.std.specs.Prelude.{◌≡◌, ◌<◌, ◌≤◌, slice_get};
ghost use Rattle.caller_parts.specs.Codes.{shown_at};
ghost use Rattle.phase_pools.specs.Accesses.{located};
ghost use Rattle.caller_parts.specs.declared.routine.Routine.TheVariants.{At};
ghost use Rattle.caller_steps.specs.Entries.{instr_in};
ghost use Rattle.caller_parts.specs.Operands.{list_of, AreSlots};
ghost use Rattle.caller_steps.specs.Wants.{exchange_wanted, object_exchange, plain_wanted, instr_wanted, list_wanted, clear_wanted, announcing_wanted, wants};
ghost use Rattle.caller_steps.specs.Asking.{located_option, CanExchange, CanAsk, CanAskPlain, CanAskInstr, CanAskList, IsRegister};

use crate::entry::Entry;
use crate::stand::Stand;
use caller_parts::operands::{exchange_at, list_of, slot_in, word_in};
use caller_parts::{Announcing, Program, Setting, Step};
use norm_lang::registers::{Registers, number_at};
use norm_lang::text::{CasEntry, Instr, Place, Reg};
use oa_words::shape::Shape;
use phase_pools::access::Access;

/// The exchange of a node's field; if the object is null, the field is loaded instead.
fn object_exchange(shape: &Shape, slot: u32, field: u32, expected: u64, replacement: u64) -> Access
    requires slot { slot ≤ shape.now.slots }
    requires field { field < shape.now.fields }
    ensures { result ≡ located shape.now (object_exchange slot field expected replacement) }
{
    let at = shape.field_at(slot, field);
    if slot == 0 {
        return Access::Load { at };
    }
    Access::CompareExchange {
        at,
        expected,
        replacement,
    }
}

#[inline(always)]
fn exchange_wanted(
    program: &Program,
    shape: &Shape,
    exchange: &CasEntry,
    registers: &Registers,
) -> Access
    requires slots { AreSlots registers.now }
    requires can { CanExchange program.now.fields shape.now exchange.now.place registers.now }
    ensures { result ≡ located shape.now (exchange_wanted program.now.fields exchange.now registers.now) }
{
    let expected = word_in(registers, exchange.expected);
    let replacement = word_in(registers, exchange.replacement);
    match exchange.place {
        Place::Root(x) => Access::CompareExchange {
            at: shape.cell_at(x as u32),
            expected,
            replacement,
        },
        Place::Field(a, f) => {
            object_exchange(
                shape,
                slot_in(registers, a),
                program.place_of(f),
                expected,
                replacement,
            )
        }
    }
}

#[inline(always)]
fn plain_wanted(
    program: &Program,
    shape: &Shape,
    instr: &Instr,
    registers: &Registers,
) -> Option<Access>
    requires slots { AreSlots registers.now }
    requires can { CanAskPlain program.now.fields shape.now instr.now registers.now }
    ensures { result ≡ located_option shape.now (plain_wanted program.now.fields instr.now registers.now) }
{
    match instr {
        Instr::LoadRoot(_, x) => Some(Access::Load {
            at: shape.cell_at(*x as u32),
        }),
        Instr::LoadPick(_, x, count, a) => {
            let place = number_at(registers, *a)
                .checked_rem(*count as u64)
                .unwrap_or(0) as u32;
            Some(Access::Load {
                at: shape.cell_at(*x as u32 + place),
            })
        }
        Instr::LoadField(_, a, f) => Some(Access::Load {
            at: shape.field_at(slot_in(registers, *a), program.place_of(*f)),
        }),
        Instr::Put(a, f, b) => Some(Access::Store {
            at: shape.field_at(slot_in(registers, *a), program.place_of(*f)),
            word: word_in(registers, *b),
        }),
        Instr::Cas(exchange, _) => Some(exchange_wanted(program, shape, exchange, registers)),
        _ => None,
    }
}

/// A store of 0 to a hazard of the caller.
fn clear_wanted(shape: &Shape, caller: u32, register: Option<u32>) -> Option<Access>
    requires caller { caller < shape.now.callers }
    requires register { IsRegister register }
    ensures { result ≡ located_option shape.now (clear_wanted caller register) }
{
    match register {
        None => None,
        Some(r) => Some(Access::Store {
            at: shape.hazard_at(caller, r),
            word: 0,
        }),
    }
}

/// The load of the phase, or a store to the caller's own warning word.
fn announcing_wanted(shape: &Shape, caller: u32, announcing: Announcing) -> Access
    requires { caller < shape.now.callers }
    ensures { result ≡ located shape.now (announcing_wanted caller announcing) }
{
    let word = match announcing {
        Announcing::Loads(_) => {
            return Access::Load {
                at: shape.phase_at(),
            };
        }
        Announcing::Stores(_, phase) => phase,
        Announcing::Leaves(_) => 0,
    };
    Access::Store {
        at: shape.warning_at(caller),
        word,
    }
}

impl Entry {
    #[inline(always)]
    fn instr_wanted(&self, program: &Program, shape: &Shape, instr: Option<Step>) -> Option<Access>
        requires caller { self.now.core.number < shape.now.callers }
        requires slots { AreSlots self.now.core.hand.registers }
        requires can { CanAskInstr program.now.fields shape.now (shown_at instr) self.now.core.hand.registers }
        ensures { result ≡ located_option shape.now (instr_wanted program.now.fields self.now.core.number (shown_at instr.entry) self.now.core.hand.registers) }
    {
        match instr {
            None => None,
            Some(Step::Plain(instr)) => plain_wanted(program, shape, instr, &self.hand.registers),
            Some(Step::Check) => Some(Access::Load {
                at: shape.warning_at(self.number),
            }),
            Some(Step::Guard(Reg::Ref(r))) => Some(Access::Store {
                at: shape.hazard_at(self.number, r as u32),
                word: slot_in(&self.hand.registers, Reg::Ref(r)) as u64,
            }),
            Some(Step::Guard(Reg::Num(_))) => None,
        }
    }

    fn list_wanted(&self, program: &Program, shape: &Shape, k: usize) -> Option<Access>
        requires slots { AreSlots self.now.core.hand.registers }
        requires can { CanAskList program.now.fields shape.now (slice_get (list_of (instr_in program.now self.now.core)) k) self.now.core.hand.registers }
        ensures { result ≡ located_option shape.now (list_wanted program.now.fields (slice_get (list_of (instr_in program.now self.now.core)) k) self.now.core.hand.registers) }
    {
        match exchange_at(list_of(self.instr_in(program)), k) {
            None => None,
            Some(exchange) => Some(exchange_wanted(program, shape, exchange, &self.hand.registers)),
        }
    }

    /// `pending` of a caller that stands at an access of its method, whose instruction is given.
    #[inline(always)]
    #[tactic(auto, using(crate::proofs::Standing::wants_at))]
    pub fn pending_at(
        &self,
        program: &Program,
        setting: &Setting,
        instr: Option<Step>,
    ) -> Option<Access>
        requires caller { self.now.core.number < setting.now.sizes.callers }
        requires slots { AreSlots self.now.core.hand.registers }
        requires stands { self.now.core.routine ≡ At }
        requires instr { shown_at instr ≡ instr_in program.now self.now.core }
        requires can { CanAsk program.now setting.now self.now.core self.now.core.routine }
        ensures { result ≡ located_option setting.now.sizes (wants program.now self.now.core) }
    {
        self.instr_wanted(program, setting.shape(), instr)
    }

    /// The one access that the entry makes next; none exactly if it is idle, or stands at no access. What it stands at is
    /// in the row, and its registers name slots.
    #[tactic(auto, unfolding(crate::specs::Wants::wants))]
    #[inline(always)]
    pub fn pending(&self, program: &Program, setting: &Setting) -> Option<Access>
        requires caller { self.now.core.number < setting.now.sizes.callers }
        requires slots { AreSlots self.now.core.hand.registers }
        requires can { CanAsk program.now setting.now self.now.core self.now.core.routine }
        ensures { result ≡ located_option setting.now.sizes (wants program.now self.now.core) }
    {
        let shape = setting.shape();
        match &self.stand {
            Stand::Idle => None,
            Stand::LoadSeen(_) => Some(Access::Load {
                at: shape.warning_at(self.number),
            }),
            Stand::At => self.instr_wanted(program, shape, self.instr_in(program)),
            Stand::InList(k) => self.list_wanted(program, shape, *k),
            Stand::Retires(retirement, _) => Some(retirement.pending(shape)),
            Stand::Restarts => clear_wanted(shape, self.number, self.restart_next(program)),
            Stand::Clears(next) => {
                clear_wanted(shape, self.number, self.clear_next(program, *next))
            }
            Stand::Claims => match &self.claim {
                Some(claim) => Some(claim.pending(shape, setting.last_phase())),
                None => self.instr_wanted(program, shape, self.instr_in(program)),
            },
            Stand::Announces(announcing) => {
                Some(announcing_wanted(shape, self.number, *announcing))
            }
            Stand::Zeroes(k, field) => Some(Access::Store {
                at: shape.field_at(self.cradle(*k), *field),
                word: 0,
            }),
        }
    }
}
