//! What holds of one caller of the core: that its entry goes on to belong, that what it wants is safe, and how its calls end.

ghost use Rattle.core_runs.specs.caller_laws.Laws.{ForRuns, EntriesBelong, EntriesAskSafely, EntriesFitCode, StoresTellNothing, PutsFindNodes, NewsHaveCradles};

/// An entry goes on to belong to the target and the setting; what it wants is one access in the row, which leaves a lawful
/// word lawful; the code may ask for it and take what it finds; the object of a put is a node; and each `new` of a method has a cradle of
/// its own.
pub fn entries_belong()
    ensures belong { ForRuns EntriesBelong }
    ensures safe { ForRuns EntriesAskSafely }
    ensures code { ForRuns EntriesFitCode }
    ensures puts { ForRuns PutsFindNodes }
    ensures cradles { ForRuns NewsHaveCradles }
{}

/// The word that a store found doesn't matter to what follows.
pub fn stores_tell_nothing()
    ensures { ForRuns StoresTellNothing }
{}
