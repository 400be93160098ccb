//! Rows worked out by hand on definitions that laws cite: states and runs that a definition takes in, and such as it must refuse.
#![tactic(auto)]

ghost use Rattle.law_rows.specs.RowStates.{PhaseRows, OutOfRow, StrangeEntries};
ghost use Rattle.law_rows.specs.CallRuns.{StepRows, CauseRows, EpochCauseRows, ClaimedRows, NewRows};
ghost use Rattle.law_rows.specs.NamedSlots.{TouchedRows};
ghost use Rattle.law_rows.specs.TableStates.{ShownRows, NotShownRows, NotClosedRows};

/// Phases at the ends of a run's range, states with one thing out of the row, and entries that belong to no state.
pub fn row_states()
    ensures phases { PhaseRows }
    ensures out_of_row { OutOfRow }
    ensures strange { StrangeEntries }
{}

/// The steps of each call, why calls were given up under either scheme, and which slots were claimed, on explicit runs; and calls with a `new`.
pub fn call_runs()
    ensures steps { StepRows }
    ensures causes { CauseRows }
    ensures epoch_causes { EpochCauseRows }
    ensures claimed { ClaimedRows }
    ensures news { NewRows }
{}

/// States in which a word or an entry names a slot, which isn't untouched then.
pub fn named_slots()
    ensures { TouchedRows }
{}

/// States of a table that show a state of the core, and states that show none; and ends that hand out other entries than rested.
pub fn table_states()
    ensures shown { ShownRows }
    ensures not_shown { NotShownRows }
    ensures not_closed { NotClosedRows }
{}
