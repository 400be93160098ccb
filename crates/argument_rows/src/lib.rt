//! Rows on the arguments of calls: which there are, and a text whose properness hangs on it.
#![tactic(auto)]

ghost use Rattle.norm_lang.specs.Limits.{IsWithinLimits};
ghost use Rattle.norm_lang.specs.NormalForm.{IsNormal};
ghost use Rattle.source_machine.specs.Proper.{IsProperForAny};
ghost use Rattle.argument_rows.specs.Calls.{CoreArgumentRows};
ghost use Rattle.argument_rows.specs.Losing.{losing, ArgumentRows};

/// An operation begins with four words of 64 bits, of which those past its count are 0, and with nothing else: in the source, and in
/// the core.
#[tactic(auto, using(crate::proofs::Rows::argument_rows, crate::proofs::Rows::core_argument_rows))]
pub fn argument_rows()
    ensures source { ArgumentRows }
    ensures core { CoreArgumentRows }
{}

/// A text that the rules accept is proper, although it would retire the node in its root for an argument past 64 bits: there
/// is no such argument.
#[tactic(auto, using(crate::proofs::Rows::losing_is_within, crate::proofs::Rows::losing_is_normal))]
pub fn losing_is_proper()
    ensures within { IsWithinLimits losing }
    ensures normal { IsNormal losing }
    ensures proper { IsProperForAny losing }
{}
