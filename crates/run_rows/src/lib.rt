//! Runs of the list by two callers, worked out by hand: their images, the tops of the chain, and the names of slots.
#![tactic(auto)]

ghost use Rattle.run_rows.specs.DrawnRows.{DrawnRows};
ghost use Rattle.run_rows.specs.GuardMarks.{GuardMarks, CountedGuards, RepeatedGuards};
ghost use Rattle.run_rows.specs.ListImages.{RecycledImage, GuardedImage};
ghost use Rattle.run_rows.specs.ListNames.{RecycledNames, HeldNames, RecycledLoad};
ghost use Rattle.run_rows.specs.ListTops.{TakenAndPushed, HeadAgain};
ghost use Rattle.run_rows.specs.ScriptRuns.{ScriptRuns};

/// Images: the events that the steps of a core run give to the source machine, in their order, with the names that are drawn and the
/// slots of these names. A shadow that names or orders them otherwise breaks a row. In one run a slot is given out again and a stale
/// load is made; in the other a guarded slot stays retired.
pub fn list_images()
    ensures recycled { RecycledImage }
    ensures guarded { GuardedImage }
{}

/// Which hazard words of the second run are validated guards, step by step; and a wrap-up's guard of a register that its run has set
/// counts, and one of a register that it hasn't set doesn't; and a validated word in which a guard stores the same slot again stays so.
pub fn guard_marks()
    ensures marks { GuardMarks }
    ensures counted { CountedGuards }
    ensures repeated { RepeatedGuards }
{}

/// Tops of the chain: a slot that is taken from under the head, and is pushed again; and a head that another caller's push and claim
/// bring back between a look's load of it and its exchange. In these two runs each premise of the laws of `chain_runs` holds.
pub fn list_tops()
    ensures pushed { TakenAndPushed }
    ensures again { HeadAgain }
{}

/// The names of slots in a run in which a slot is given out again and a stale load is made: a fold that gives, keeps or drops names
/// otherwise breaks a row.
pub fn stale_load()
    ensures names { RecycledNames }
    ensures held { HeldNames }
    ensures load { RecycledLoad }
{}

/// Runs of scripts: which are complete, and which aren't, as one in which an idle caller has stopped in the middle of its script, or a
/// call still runs that may make more steps.
pub fn script_runs()
    ensures { ScriptRuns }
{}

/// Names that are drawn where the source enables no `new`.
#[tactic(auto, using(crate::proofs::Drawn::drawn_rows))]
pub fn drawn_names()
    ensures { DrawnRows }
{}
