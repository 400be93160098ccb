//! The laws, for the crates above.

ghost use Rattle.kind_laws.specs.AlongPaths.{KeptKindsStay, GivenKindsCome, CopiedKindsCome, CommitsCarryOver};
ghost use Rattle.kind_laws.specs.TextKinds.{KindsAreInText, AskedKindsAreOne, AskedKindsAreOneInTarget, AskedKindsAreNamed};
ghost use Rattle.kind_laws.specs.Laws.{LocalCodeKeepsKinds, LoadsKeepKinds, NewNodesKeepKinds, CommitsCarryKinds, RestartsKeepKinds};

/// What a register may have goes along a target's paths: it stays if the register isn't set, comes if an instruction gives it or copies it, and is
/// carried over a commit.
pub fn kinds_go_along_paths()
    ensures kept { KeptKindsStay }
    ensures given { GivenKindsCome }
    ensures copied { CopiedKindsCome }
    ensures carried { CommitsCarryOver }
{}

/// With checks and guards left out, what a register may have in a target it may have in the text.
pub fn kinds_are_in_text()
    ensures { KindsAreInText }
{}

/// N15 for those who run code: a register that an instruction asks to be of a kind has no other.
pub fn asked_kinds_are_one()
    ensures text { AskedKindsAreOne }
    ensures target { AskedKindsAreOneInTarget }
    ensures named { AskedKindsAreNamed }
{}

/// Registers of references that have only kinds that they may have go on so: by local code, loads, new nodes, the end of a generator, and its start.
pub fn local_code_keeps_kinds()
    ensures local { LocalCodeKeepsKinds }
    ensures loads { LoadsKeepKinds }
    ensures news { NewNodesKeepKinds }
    ensures commits { CommitsCarryKinds }
    ensures restarts { RestartsKeepKinds }
{}
