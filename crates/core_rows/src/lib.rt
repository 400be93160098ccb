//! Rows worked out by hand, which the definitions of a caller and of the core are held against: runs told step by step, each
//! with the access made, the word found and the signs given, and whole runs by what is left at their end. A definition that is
//! wrong where a row looks breaks that row.
#![tactic(auto)]

ghost use Rattle.core_rows.specs.ChainRows.{ReturnedRows, CircleRows};
ghost use Rattle.core_rows.specs.CombinedRows.{CombinedRows};
ghost use Rattle.core_rows.specs.CompiledRows.{CompiledRows};
ghost use Rattle.core_rows.specs.CounterRows.{CounterRows, AgainRows, NumberRows};
ghost use Rattle.core_rows.specs.SwapRows.{KeptRows, KeptAgainRows, PeekRows, GivenUpRows};
ghost use Rattle.core_rows.specs.PressRows.{PressRows};
ghost use Rattle.core_rows.specs.TouchRows.{TouchRows};
ghost use Rattle.core_rows.specs.MeetingRows.{OwnPhaseRows, SeenRows, RaceRows};
ghost use Rattle.core_rows.specs.DropRows.{DropRows};
ghost use Rattle.core_rows.specs.CradleRows.{BranchRows, StaleRows, LateRows};
ghost use Rattle.core_rows.specs.ListRows.{ListRows};
ghost use Rattle.core_rows.specs.PairRows.{PairRows, FifthRows};
ghost use Rattle.core_rows.specs.SharedRows.{RecycledRows, SparedRows, HelpedRows};
ghost use Rattle.core_rows.specs.TwoKindRows.{TwoKindStarts, TwoKindCradles, TwoKindSweeps};
ghost use Rattle.core_rows.specs.ThreeKindRows.{ThreeKindSettings, ThreeKindCradles, ThreeKindWords};
ghost use Rattle.core_rows.specs.ReplayRows.{ListReplays, SharedReplays, QueueReplays, TurnRows, KindRows};

/// The targets of the rows are compiled code of their texts: with a check after each load, and two of them as `compile` makes them.
pub fn hand_written_targets()
    ensures { CompiledRows }
{}

/// The counter, step by step: a call alone, one that is disturbed and begins again, the choice of a root, and exchanges on null.
pub fn counter_rows()
    ensures counter { CounterRows }
    ensures again { AgainRows }
    ensures numbers { NumberRows }
{}

/// A wrap-up that keeps a register and restarts, wrap-ups that load, and calls that are given up.
pub fn swap_rows()
    ensures kept { KeptRows }
    ensures kept_again { KeptAgainRows }
    ensures peek { PeekRows }
    ensures given_up { GivenUpRows }
{}

/// A generator begins again with its arguments; exchanges by themselves; two arguments, two fields, marks; a first phase of 5.
pub fn argument_rows()
    ensures press { PressRows }
    ensures touch { TouchRows }
    ensures pairs { PairRows }
    ensures fifth { FifthRows }
{}

/// Two callers meet in their sweeps, claims and loads of the own warning.
pub fn meeting_rows()
    ensures own_phase { OwnPhaseRows }
    ensures seen { SeenRows }
    ensures races { RaceRows }
{}

/// Lists of two exchanges with their retirements.
pub fn drop_rows()
    ensures { DropRows }
{}

/// Cradles: whose slots they keep, how long, and what a `new` does with guards.
pub fn cradle_rows()
    ensures branches { BranchRows }
    ensures stale { StaleRows }
    ensures late { LateRows }
{}

/// The compiled list, by one caller and by two: a slot that is given out again, one that a guard keeps, and a removal that is helped.
pub fn list_rows()
    ensures alone { ListRows }
    ensures recycled { RecycledRows }
    ensures spared { SparedRows }
    ensures helped { HelpedRows }
{}

/// Whole runs of the list, the queue and the counter by the turns of a schedule, and replays that are refused.
pub fn replay_rows()
    ensures list { ListReplays }
    ensures shared { SharedReplays }
    ensures queue { QueueReplays }
    ensures turns { TurnRows }
    ensures kinds { KindRows }
{}

/// The queue as `compile` makes it, with checks that loads share: each call alone, whole runs of the queue, and its target by hand.
pub fn combined_rows()
    ensures { CombinedRows }
{}

/// The chain of ready slots: a head that comes back under the same phase, and a circle that a text makes which isn't proper, so that
/// three callers claim one slot.
pub fn chain_rows()
    ensures returned { ReturnedRows }
    ensures circle { CircleRows }
{}

/// Two kinds of nodes: the words at the start, a restart between two `new` of two kinds, and claims of one kind that sweep for the other.
pub fn two_kind_rows()
    ensures starts { TwoKindStarts }
    ensures cradles { TwoKindCradles }
    ensures sweeps { TwoKindSweeps }
{}

/// Three kinds of nodes: what a setting is to say of them, which cradle each `new` has, and which words may stand where.
pub fn three_kind_rows()
    ensures settings { ThreeKindSettings }
    ensures cradles { ThreeKindCradles }
    ensures words { ThreeKindWords }
{}
