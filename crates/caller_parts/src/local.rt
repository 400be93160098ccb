//! Local code of a target.

ghost use Rattle.std.specs.Prelude.{◌≡◌, ◌<◌, ◌≤◌, ◌+◌, max, length, option_map, IfSome, IfNone, Some};
ghost use Rattle.target_code.specs.LocalCode.{target_local_at, target_run};
ghost use Rattle.caller_parts.specs.Codes.{code_shown, step_shown};

use crate::code::{Code, Step};
use norm_lang::local::step;
use norm_lang::registers::Registers;

/// Makes a local instruction, and answers the next place; at any other instruction nothing.
#[inline(always)]
fn target_step(instr: Step, at: usize, registers: &mut Registers) -> Option<usize>
    requires { at < usize.MAX }
    ensures near { IfSome result (λ next. next ≤ max (at + 1) 65535) }
    ensures same { IfNone result (registers.new ≡ registers.old) }
    ensures gives { target_local_at (Some (step_shown instr.entry)) at registers.old ≡ option_map (λ next. record { at = next; registers = registers.new }) result }
{
    match instr {
        Step::Plain(instr) => step(instr, at, registers),
        Step::Check | Step::Guard(_) => None,
    }
}

/// Makes the local instructions from a place on, up to one that isn't local or past the end: at most as many as the code has.
#[tactic(auto, using(crate::proofs::Turns::goes_further, crate::proofs::Turns::ends_here, crate::proofs::Turns::stays_near))]
pub fn run_target(code: Code, start: usize, registers: &mut Registers) -> usize
    ensures near { result ≤ max start (max (length (code_shown code.entry)) 65535) }
    ensures gives { target_run (code_shown code.entry) (length (code_shown code.entry)) (record { at = start; registers = registers.old }) ≡ record { at = result; registers = registers.new } }
{
    let mut at = start;
    for _ in 0..code.len() {
        match code.at(at) {
            None => return at,
            Some(instr) => match target_step(instr, at, registers) {
                None => return at,
                Some(next) => at = next,
            },
        }
    }
    at
}
