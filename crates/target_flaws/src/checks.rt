//! The machine that sees whether a number and a reference are clean: neither holds what a load or a `new` gave and
//! no check has confirmed.

ghost use Rattle.std.specs.Prelude.{◌≡◌, ◌∷◌, []};
ghost use Rattle.target_code.specs.Flaws.{clean_after};
ghost use Rattle.target_flaws.specs.Machines.{clean_number, pair_after};

use norm_lang::text::Reg;
use norm_paths::uses::sets;
use target_code::target::TargetInstr;
use target_code::uses::fetches;

/// Both are clean.
const BOTH_CLEAN: u8 = 0;

/// The reference alone is clean.
pub(crate) const NUMBER_UNCHECKED: u8 = 1;

/// The number alone is clean.
pub(crate) const REFERENCE_UNCHECKED: u8 = 2;

pub(crate) const BOTH_UNCHECKED: u8 = 3;

/// Whether a register is clean after an instruction, by whether it was before.
fn clean_after(register: Reg, instr: &TargetInstr, was: bool) -> bool
    ensures { result ≡ clean_after register instr.now was }
{
    match instr {
        TargetInstr::Plain(plain) => {
            if sets(register, plain) {
                !fetches(plain)
            } else {
                was
            }
        }
        TargetInstr::Check => true,
        TargetInstr::Guard(_) => was,
    }
}

fn clean_number(number: bool, reference: bool) -> u8
    ensures { result ≡ clean_number number reference }
{
    match (number, reference) {
        (true, true) => BOTH_CLEAN,
        (false, true) => NUMBER_UNCHECKED,
        (true, false) => REFERENCE_UNCHECKED,
        (false, false) => BOTH_UNCHECKED,
    }
}

/// The states after an instruction of the registers with a number, for each state before it.
pub(crate) fn states_after(number: u8, instr: &TargetInstr) -> [u8; 4]
    ensures { result ≡ pair_after number instr.now 0 ∷ pair_after number instr.now 1 ∷ pair_after number instr.now 2 ∷ pair_after number instr.now 3 ∷ [] }
{
    let number_clean = clean_after(Reg::Num(number), instr, true);
    let number_unchecked = clean_after(Reg::Num(number), instr, false);
    let reference_clean = clean_after(Reg::Ref(number), instr, true);
    let reference_unchecked = clean_after(Reg::Ref(number), instr, false);
    [
        clean_number(number_clean, reference_clean),
        clean_number(number_unchecked, reference_clean),
        clean_number(number_clean, reference_unchecked),
        clean_number(number_unchecked, reference_unchecked),
    ]
}
