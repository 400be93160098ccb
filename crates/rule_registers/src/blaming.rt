//! Whether a register is at fault, by what was found out about the operation.

ghost use Rattle.std.specs.Prelude.{◌≡◌, ◌<◌, ◌^◌};
ghost use Rattle.norm_paths.specs.OpFound.{found_of};
ghost use Rattle.rule_registers.specs.Blamed.{is_put_wrongly_by, is_leaked_by, is_other_kind_by, is_blamed};

use crate::misplaced::{
    is_computed_with, is_misplaced, is_put, is_put_into, is_retired_wrongly, is_shown,
};
use kind_rules::{KindFacts, mixes_in};
use norm_lang::text::{Instr, Reg, Text};
use norm_paths::uses::{exchanges, follows, is_commit, reads, sets};
use norm_paths::{Kept, MethodFacts, OpFacts, reads_openly};

/// An instruction of a text, and what was found out about its operation.
#[derive(Drop)]
pub(crate) struct Site<'a> {
    pub(crate) text: &'a Text,
    pub(crate) facts: &'a OpFacts,
    pub(crate) kinds: &'a [KindFacts],
    pub(crate) wrapup: bool,
    pub(crate) at: usize,
    pub(crate) instr: &'a Instr,
}

fn is_put_wrongly(
    wrapup: bool,
    at: usize,
    instr: &Instr,
    method: &MethodFacts,
    register: Reg,
) -> bool
    ensures { result ≡ is_put_wrongly_by wrapup at instr.now method.now register }
{
    !wrapup
        && ((is_put_into(register, instr) && !method.is_surely_fresh(register, at))
            || (is_put(register, instr) && method.may_be_fresh(register, at)))
}

fn is_leaked(at: usize, instr: &Instr, method: &MethodFacts, kept: &Kept, register: Reg) -> bool
    ensures { result ≡ is_leaked_by at instr.now method.now kept.now register }
{
    (reads_openly(register, instr) || (is_commit(instr) && kept.has(register)))
        && method.may_be_fresh(register, at)
}

impl<'a> Site<'a> {
    fn is_other_kind(&self, register: Reg) -> bool
        requires { self.now.at < 2 ^ 26 }
        ensures { result ≡ is_other_kind_by self.now.text.now.fields self.now.text.now.roots self.now.wrapup self.now.at self.now.instr.now self.now.kinds.now register }
    {
        match register {
            Reg::Num(_) => false,
            Reg::Ref(number) => mixes_in(
                self.text.fields.items(),
                self.text.roots.items(),
                self.wrapup,
                self.at,
                self.instr,
                number,
                self.kinds,
            ),
        }
    }

    /// Whether a register is at fault by the rule with a number.
    pub(crate) fn is_blamed(&self, rule: u8, register: Reg) -> bool
        requires { self.now.at < 2 ^ 26 }
        ensures { result ≡ is_blamed rule self.now.text.now.fields self.now.text.now.roots self.now.wrapup self.now.at self.now.instr.now (found_of self.now.facts.now self.now.wrapup) self.now.facts.now.kept self.now.kinds.now register }
    {
        let fields = self.text.fields.items();
        let roots = self.text.roots.items();
        let method = self.facts.method(self.wrapup);
        let kept = &self.facts.kept;
        if rule == 1 {
            is_misplaced(fields, roots, register, self.instr)
        } else if rule == 2 {
            is_computed_with(register, self.instr)
        } else if rule == 4 {
            is_put_wrongly(self.wrapup, self.at, self.instr, method, register)
        } else if rule == 5 {
            is_shown(register, self.instr) && method.may_be_fresh(register, self.at)
        } else if rule == 6 {
            is_leaked(self.at, self.instr, method, kept, register)
        } else if rule == 9 {
            self.wrapup && (sets(register, self.instr) && kept.has(register))
        } else if rule == 10 {
            self.wrapup && (follows(register, self.instr) && kept.has(register))
        } else if rule == 11 {
            self.wrapup && (exchanges(register, self.instr) && kept.has(register))
        } else if rule == 12 {
            is_retired_wrongly(register, self.instr)
        } else if rule == 14 {
            reads(register, self.instr) && method.may_be_unset(register, self.at)
        } else if rule == 15 {
            self.is_other_kind(register)
        } else {
            false
        }
    }
}
