//! What an operation of a text asks of the target that is compiled of it.

ghost use Rattle.std.specs.Prelude.{◌≡◌};
ghost use Rattle.norm_paths.specs.Found.{IsOpWithin};
ghost use Rattle.norm_paths.specs.OpFound.{AreOpFacts};
ghost use Rattle.target_flaws.specs.Needs.{AreNeeds, is_handed_by, is_kept_by};

use norm_lang::text::{Op, Reg};
use norm_paths::OpFacts;

/// What a wrap-up uses of what registers hold at the commit.
#[derive(Clone, Copy)]
pub struct Needs {
    /// For each number whether the commit hands it over. The last isn't: it will be the count of exchanges.
    pub handed_over: [bool; 8],
    /// For each reference whether the wrap-up keeps it.
    pub kept: [bool; 8],
}

impl Needs {
    /// Those of an operation within the limits, by its facts.
    pub fn of_op(op: &Op, facts: &OpFacts) -> Needs
        requires within { IsOpWithin op.now }
        requires true_of { AreOpFacts op.now facts.now }
        ensures { AreNeeds op.now result }
    {
        Needs {
            handed_over: [
                facts.carries(op, Reg::Num(0)),
                facts.carries(op, Reg::Num(1)),
                facts.carries(op, Reg::Num(2)),
                facts.carries(op, Reg::Num(3)),
                facts.carries(op, Reg::Num(4)),
                facts.carries(op, Reg::Num(5)),
                facts.carries(op, Reg::Num(6)),
                false,
            ],
            kept: [
                facts.kept.has(Reg::Ref(0)),
                facts.kept.has(Reg::Ref(1)),
                facts.kept.has(Reg::Ref(2)),
                facts.kept.has(Reg::Ref(3)),
                facts.kept.has(Reg::Ref(4)),
                facts.kept.has(Reg::Ref(5)),
                facts.kept.has(Reg::Ref(6)),
                facts.kept.has(Reg::Ref(7)),
            ],
        }
    }

    /// Whether the commit hands the register over.
    pub(crate) fn hands_over(&self, register: Reg) -> bool
        ensures { result ≡ is_handed_by self.now.handed_over register }
    {
        match register {
            Reg::Num(number) => self
                .handed_over
                .get(number as usize)
                .copied()
                .unwrap_or(false),
            Reg::Ref(_) => false,
        }
    }

    /// Whether the wrap-up keeps the register.
    pub(crate) fn keeps(&self, register: Reg) -> bool
        ensures { result ≡ is_kept_by self.now.kept register }
    {
        match register {
            Reg::Num(_) => false,
            Reg::Ref(number) => self.kept.get(number as usize).copied().unwrap_or(false),
        }
    }
}
