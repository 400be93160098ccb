//! Rows worked out by hand under epochs: runs of texts as they are, told step by step, and whole runs by what is left at their end.
#![tactic(auto)]

ghost use Rattle.epoch_rows.specs.BegunRows.{BaseRows, BegunRows};
ghost use Rattle.epoch_rows.specs.CountedRows.{CountedRows};
ghost use Rattle.epoch_rows.specs.HeldRows.{HeldRows, LetGoRows};
ghost use Rattle.epoch_rows.specs.LoneRows.{BackRows, LoneRows};
ghost use Rattle.epoch_rows.specs.WholeRows.{AgainRows, WholeRows};
ghost use Rattle.epoch_rows.specs.WindowRows.{AfterWindow, WindowRows};
ghost use Rattle.epoch_rows.specs.WrapUpRows.{TallyRows, WrapUpRows};

/// One caller: an insert, a removal, a list that is full, a slot that comes back, and phases that are over.
pub fn lone_rows()
    ensures lone { LoneRows }
    ensures back { BackRows }
{}

/// An announced caller holds back all that is retired since, and lets go of it with its reply.
pub fn held_rows()
    ensures held { HeldRows }
    ensures let_go { LetGoRows }
{}

/// A sweep comes between a caller's load of the phase and its store.
pub fn window_rows()
    ensures window { WindowRows }
    ensures after { AfterWindow }
{}

/// Whole runs of the list, with the answers, phases and counts of optimistic access; and an operation that begins again.
pub fn whole_rows()
    ensures whole { WholeRows }
    ensures again { AgainRows }
{}

/// What a wrap-up loads isn't recycled before the reply, and what it loads is replied.
pub fn wrap_up_rows()
    ensures wrap_up { WrapUpRows }
    ensures tally { TallyRows }
{}

/// Which steps count a restart.
#[tactic(auto, using(crate::proofs::Counted::counted_rows))]
pub fn counted_rows()
    ensures { CountedRows }
{}

/// Which calls have begun, and from where a load goes.
#[tactic(auto, using(crate::proofs::Begun::begun_rows, crate::proofs::Begun::base_rows))]
pub fn begun_rows()
    ensures begun { BegunRows }
    ensures base { BaseRows }
{}
