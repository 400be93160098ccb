//! The rules of the normal form at an instruction of a target, on the caller's own path.

ghost use Rattle.target_laws.specs.Rules.{InstructionsAreInForm, NewIsPassedOnce, PutsGoToFresh, ExchangesShowNoFresh, OpenReadsAreNotFresh, KeptAreNotFresh, KeptAreLeft, KeptStayUnset, GeneratorsReadSet, WrapUpsReadSet};

/// An instruction of a target keeps the rules that look at one instruction, with jumps inside the target's method.
pub fn instructions_are_in_form()
    ensures { InstructionsAreInForm }
{}

/// A `new` is passed once, a put goes to a new node, and nothing but a put's object or an exchange of a commit has one.
pub fn new_nodes_stay_hidden()
    ensures new { NewIsPassedOnce }
    ensures put { PutsGoToFresh }
    ensures exchanged { ExchangesShowNoFresh }
    ensures openly { OpenReadsAreNotFresh }
    ensures kept { KeptAreNotFresh }
{}

/// A wrap-up neither sets, follows nor exchanges a register that it keeps.
pub fn kept_registers_are_left()
    ensures left { KeptAreLeft }
    ensures unset { KeptStayUnset }
{}

/// What an instruction reads was set before.
pub fn reads_are_set()
    ensures generators { GeneratorsReadSet }
    ensures wrap_ups { WrapUpsReadSet }
{}
