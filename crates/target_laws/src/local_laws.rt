//! What local code comes to, and what registers hold after a write: laws over the definitions of the language, apart
//! from its code.

ghost use Rattle.target_laws.specs.local_laws.Settling.{MethodsHaveNoBlindCycle, MethodsStayInside, CodeSettles, LocalCodeSettles, SettlesOnce, SettlesInside};
ghost use Rattle.target_laws.specs.local_laws.Forward.{ForwardCodeSettles};
ghost use Rattle.target_laws.specs.local_laws.Writes.{FirstAreEight, NumbersAreWritten, ReferencesAreWritten, MovesAreWritten, LocalCodeKeepsEight};

/// A method in normal form has no cycle without a load or an auxiliary exchange, and control stays inside it.
#[tactic(auto, using(crate::proofs::local_laws::Settled::no_blind_cycle, crate::proofs::local_laws::Inside::stays_inside))]
pub fn control_comes_to_accesses()
    ensures cycles { MethodsHaveNoBlindCycle }
    ensures inside { MethodsStayInside }
{}

/// Local code of a method in normal form settles, within as many steps as the method has instructions, and at one spot
/// alone: from a place of the method at an instruction of it that isn't local.
#[tactic(auto, using(crate::proofs::local_laws::Settled::settles, crate::proofs::local_laws::Settled::local_code_settles, crate::proofs::local_laws::Settled::settles_at_one, crate::proofs::local_laws::Inside::settles_inside))]
pub fn local_code_settles()
    ensures code { CodeSettles }
    ensures settles { LocalCodeSettles }
    ensures once { SettlesOnce }
    ensures inside { SettlesInside }
{}

/// Local code settles too if each local jump leads forward, as in texts of the first form.
#[tactic(auto, using(crate::proofs::local_laws::Forwards::forward_code_settles))]
pub fn forward_code_settles()
    ensures { ForwardCodeSettles }
{}

/// A register holds what was written to it, and every other register what it held.
#[tactic(auto, using(crate::proofs::local_laws::Written::first_are_eight, crate::proofs::local_laws::Written::numbers_are_written, crate::proofs::local_laws::Written::references_are_written, crate::proofs::local_laws::Written::moves_are_written, crate::proofs::local_laws::Written::local_code_keeps_eight))]
pub fn writes_are_read()
    ensures first { FirstAreEight }
    ensures numbers { NumbersAreWritten }
    ensures references { ReferencesAreWritten }
    ensures moves { MovesAreWritten }
    ensures local { LocalCodeKeepsEight }
{}
