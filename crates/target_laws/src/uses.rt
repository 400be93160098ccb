//! What a caller of a barred target finds in the registers that an instruction uses.

ghost use Rattle.target_laws.specs.Uses.{CleanWhereUsed, KeptAreClean, EntriesAreClean, ValidatedWhereNeeded, ValidatedAreClean, EntriesAreValidated, KeptAreNotGuarded};

/// On the caller's own path each register is clean that an instruction reads or a commit hands over, and so is what each
/// exchange of a commit reads, and each reference that the wrap-up keeps.
pub fn uses_are_clean()
    ensures used { CleanWhereUsed }
    ensures kept { KeptAreClean }
    ensures entries { EntriesAreClean }
{}

/// Each that an exchange or a commit needs guarded is under a validated guard, and so clean, and no wrap-up guards again what
/// it keeps.
pub fn exchanges_are_guarded()
    ensures needed { ValidatedWhereNeeded }
    ensures clean { ValidatedAreClean }
    ensures entries { EntriesAreValidated }
    ensures kept { KeptAreNotGuarded }
{}
