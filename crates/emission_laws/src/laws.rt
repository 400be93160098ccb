//! That the lines of an operation make the accesses of the core's caller.

ghost use Rattle.emission_laws.specs.Accesses.{AccessesAreMade};
ghost use Rattle.emission_laws.specs.Clears.{ClearsAreMade, EntriesClear};
ghost use Rattle.emission_laws.specs.Fitting.{InstructionsFit};
ghost use Rattle.emission_laws.specs.Layouts.{BlocksStand, OperationsStand};
ghost use Rattle.emission_laws.specs.Locals.{LocalsAreMade};
ghost use Rattle.emission_laws.specs.Starts.{EndsAreMade, RestartsAreMade, StartsAreMade};
ghost use Rattle.emission_laws.specs.Stops.{StopsAreMade};

/// A caller that runs the block of a load, a put, a check or a guard makes the access that the entry beside it wants, and goes on as the entry
/// does.
pub fn accesses_are_made()
    ensures { AccessesAreMade }
{}

/// The lines of a clear store 0 in each own hazard that isn't 0, but for those that are spared, in the order of numbers.
pub fn clears_are_made()
    ensures { ClearsAreMade }
{}

/// A caller in a clear makes the store that the entry beside it wants, and comes as far as the entry does.
pub fn entries_clear()
    ensures { EntriesClear }
{}

/// Where local code of a target leads, its lines lead.
pub fn locals_are_made()
    ensures { LocalsAreMade }
{}

/// Blocks that are put one after another stand where they start, and so do the blocks of a method's instructions, where its jumps lead.
pub fn blocks_stand()
    ensures { BlocksStand }
{}

/// The parts of an operation stand in its lines, where its jumps lead.
pub fn operations_stand()
    ensures { OperationsStand }
{}

/// A method starts with the load of the caller's own warning, and with the registers of the core's method.
pub fn starts_are_made()
    ensures { StartsAreMade }
{}

/// A caller that was warned clears its hazards, and begins its method again.
pub fn restarts_are_made()
    ensures { RestartsAreMade }
{}

/// The end of a list leads to the clear before the wrap-up, and an operation ends with the core's reply or begins again.
pub fn ends_are_made()
    ensures { EndsAreMade }
{}

/// Where local code stops at an access the core stands before it. At a `new` and at an end the lines come as far with the clear as the core.
pub fn stops_are_made()
    ensures { StopsAreMade }
{}

/// What the laws ask of instructions, of their objects and of the words that are told holds in each target that callers may run.
pub fn instructions_fit()
    ensures { InstructionsFit }
{}
