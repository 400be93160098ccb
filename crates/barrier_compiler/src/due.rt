//! Which checks are due, in the order of a method's instructions.

ghost use Rattle.std.specs.Prelude.{◌≡◌, ◌<◌, ◌++◌, length, IfOk};
ghost use Rattle.std.specs.List.{list_any};
ghost use Rattle.norm_lang.specs.RegisterUse.{registers_named, destination};
ghost use Rattle.norm_lang.specs.Flow.{is_end};
ghost use Rattle.target_code.specs.SecondScheme.{none_due, is_due, breaks, reads_some, needs_check, noted, left_due, jumps_to, meets_jump, next_due, marked};

use norm_lang::text::{Instr, Reg};
use norm_paths::uses::{destination, reads};
use std::alloc::{AllocError, Global};
use std::marker::Model;
use target_code::uses::fetches;

/// What was set since the last check: by loads and `new`, and by other instructions after the first of these.
#[derive(Drop)]
pub(crate) struct Notes {
    fetched: Vec<Reg>,
    others: Vec<Reg>,
}

impl Model for Notes {
    ghost use Rattle.target_code.specs.SecondScheme.{Due};

    ghost Value = { Due };

    ghost view = { λ n. record { fetched = n.fetched.items; others = n.others.items } };
}

/// Where checks stand beside an instruction.
#[derive(Clone, Copy)]
pub(crate) struct Checks {
    pub before: bool,
    pub after: bool,
}

fn is_end(instr: &Instr) -> bool
    ensures { result ≡ is_end instr.now }
{
    matches!(instr, Instr::Return(_) | Instr::ReturnNone | Instr::Again)
}

fn breaks(instr: &Instr) -> bool
    ensures { result ≡ breaks instr.now }
{
    matches!(
        instr,
        Instr::New(..)
            | Instr::Put(_, _, _)
            | Instr::Cas(_, _)
            | Instr::Jump(_)
            | Instr::IfEq(_, _, _)
            | Instr::IfLess(_, _, _)
            | Instr::IfMarked(_, _)
            | Instr::Commit(_)
    )
}

fn reads_some(instr: &Instr, registers: &[Reg]) -> bool
    ensures { result ≡ reads_some instr.now registers.now }
{
    registers.iter().any(|register| reads(*register, instr))
}

fn jumps_to(at: usize, instr: &Instr) -> bool
    ensures { result ≡ jumps_to at instr.now }
{
    match instr {
        Instr::Cas(_, l)
        | Instr::Jump(l)
        | Instr::IfEq(_, _, l)
        | Instr::IfLess(_, _, l)
        | Instr::IfMarked(_, l) => *l as usize == at,
        _ => false,
    }
}

fn is_led_to(code: &[Instr], at: usize) -> bool
    ensures { result ≡ list_any (jumps_to at) code.now }
{
    code.iter().any(|instr| jumps_to(at, instr))
}

/// Adds the register that an instruction sets, if it sets one.
fn add_destination(registers: &mut Vec<Reg>, instr: &Instr) -> Result<(), AllocError>
    ensures { IfOk result (λ _. registers.new.items ≡ registers.old.items ++ registers_named (destination instr.now)) }
{
    if let Some(register) = destination(instr) {
        registers.push(register)?;
    }
    Ok(())
}

impl Notes {
    /// The notes where a method starts: nothing is due.
    pub fn none(alloc: Global) -> Notes
        ensures { result ≡ none_due }
    {
        Notes {
            fetched: Vec::new(alloc),
            others: Vec::new(alloc),
        }
    }

    fn is_due(&self) -> bool
        ensures { result ≡ is_due self.now }
    {
        !self.fetched.is_empty()
    }

    fn needs_check(&self, instr: &Instr) -> bool
        ensures { result ≡ needs_check self.now instr.now }
    {
        if is_end(instr) {
            return reads_some(instr, &self.fetched) || reads_some(instr, &self.others);
        }
        self.is_due() && (breaks(instr) || reads_some(instr, &self.fetched))
    }

    fn clear(&mut self)
        ensures { self.new ≡ none_due }
    {
        self.fetched.clear();
        self.others.clear();
    }

    fn note(&mut self, instr: &Instr) -> Result<(), AllocError>
        ensures { IfOk result (λ _. self.new ≡ noted instr.now self.old) }
    {
        if is_end(instr) {
            self.clear();
            return Ok(());
        }
        if fetches(instr) {
            return add_destination(&mut self.fetched, instr);
        }
        if self.is_due() {
            return add_destination(&mut self.others, instr);
        }
        Ok(())
    }

    fn meets_jump(&self, code: &[Instr], at: usize) -> bool
        ensures { result ≡ meets_jump code.now at self.now }
    {
        self.is_due() && is_led_to(code, at)
    }

    /// The checks beside the instruction at a place of a method. Afterwards the notes are those for the next one.
    ///
    /// # Errors
    /// `AllocError` if memory runs out.
    pub fn checks(&mut self, code: &[Instr], at: usize, instr: &Instr) -> Result<Checks, AllocError>
        requires { at < length code.now }
        ensures same { IfOk result (λ checks. record { instr = instr.now; before = checks.before; after = checks.after } ≡ marked code.now at self.old instr.now) }
        ensures next { IfOk result (λ _. self.new ≡ next_due code.now at instr.now self.old) }
    {
        let before = self.needs_check(instr);
        if before {
            self.clear();
        }
        self.note(instr)?;
        let after = self.meets_jump(code, at + 1);
        if after {
            self.clear();
        }
        Ok(Checks { before, after })
    }
}
