//! What the register at fault has to do with the broken rule.

ghost use Rattle.rule_registers.specs.Laws.{BlamedIsBroken, BrokenIsBlamed};

/// A register is at fault by a rule only if the instruction breaks it; and if registers can break the rule that is broken, one is at
/// fault.
pub fn blame_is_right()
    ensures broken { BlamedIsBroken }
    ensures blamed { BrokenIsBlamed }
{}
