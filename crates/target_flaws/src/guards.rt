//! The machine that sees what became of a reference's last guard.

ghost use Rattle.std.specs.Prelude.{◌≡◌, ◌∷◌, []};
ghost use Rattle.norm_lang.specs.declared.text.Reg.TheVariants.{Ref};
ghost use Rattle.target_flaws.specs.Machines.{guard_number_after};

use norm_lang::text::Reg;
use norm_lang::uses::is_new;
use norm_paths::uses::{same_register, sets};
use target_code::target::TargetInstr;

/// No guard.
pub(crate) const FREE: u8 = 0;

/// A guard, with no check after it.
pub(crate) const PUBLISHED: u8 = 1;

/// A guard with a check after it.
const VALIDATED: u8 = 2;

/// A guard that was undone.
pub(crate) const DROPPED: u8 = 3;

/// The states after an instruction that changes none.
const SAME: [u8; 4] = [FREE, PUBLISHED, VALIDATED, DROPPED];

/// The states after an instruction of the guard of the reference with a number, for each state before it.
pub(crate) fn states_after(number: u8, instr: &TargetInstr) -> [u8; 4]
    ensures { result ≡ guard_number_after (Ref number) instr.now 0 ∷ guard_number_after (Ref number) instr.now 1 ∷ guard_number_after (Ref number) instr.now 2 ∷ guard_number_after (Ref number) instr.now 3 ∷ [] }
{
    let register = Reg::Ref(number);
    match instr {
        TargetInstr::Plain(plain) => {
            if sets(register, plain) || is_new(plain) {
                [FREE, DROPPED, DROPPED, DROPPED]
            } else {
                SAME
            }
        }
        TargetInstr::Check => [FREE, VALIDATED, VALIDATED, DROPPED],
        TargetInstr::Guard(guarded) => {
            if same_register(register, *guarded) {
                [PUBLISHED; 4]
            } else {
                SAME
            }
        }
    }
}
