//! What callers run, made ready for many steps.

ghost use Rattle.std.specs.Prelude.{◌≡◌};
ghost use Rattle.barrier_check.specs.Paired.{IsSound};
ghost use Rattle.core_ground.specs.Running.{bare_pair, pair_of, pair_owned, MayRun};

use crate::prepared::table_of;
use crate::running::{Owned, Runs};
use barrier_check::Barred;
use caller_parts::Program;
use caller_parts::fields::FieldTable;
use norm_check::Normal;
use std::marker::Model;

/// A barred target, or a text in normal form that is run as it is, beside the tables of what its wrap-ups keep and of its fields, which are
/// made here once for all steps of all its callers.
#[derive(Drop)]
pub struct LoadedTarget {
    owned: Owned,
    rows: [[bool; 8]; 16],
    fields: FieldTable,
}

impl Model for LoadedTarget {
    ghost use Rattle.caller_parts.specs.Spared.{KeptIs};
    ghost use Rattle.caller_parts.specs.FieldTables.{IsFieldTable};
    ghost use Rattle.barrier_check.specs.Paired.{Paired};
    ghost use Rattle.core_ground.specs.Running.{pair_owned};

    ghost Value = { Paired };

    ghost view = { λ l. pair_owned l.owned };

    ghost invariant = { λ l. KeptIs (pair_owned l.owned).target l.rows × IsFieldTable (pair_owned l.owned).target.fields l.fields };
}

fn load(owned: Owned) -> LoadedTarget
    ensures { result ≡ pair_owned owned }
{
    let runs = owned.runs();
    runs.kept();
    let rows = table_of(runs);
    let fields = FieldTable::of(runs.fields());
    LoadedTarget {
        owned,
        rows,
        fields,
    }
}

impl LoadedTarget {
    /// Loads a target. Takes no memory.
    pub fn new(barred: Barred) -> LoadedTarget
        ensures same { result ≡ barred }
        ensures sound { IsSound barred }
    {
        barred.kept();
        load(Owned::Barred(barred))
    }

    /// Loads a text that is run as it is. Takes no memory.
    pub fn bare(normal: Normal) -> LoadedTarget
        ensures { result ≡ bare_pair normal }
    {
        load(Owned::Bare(normal))
    }

    /// What callers run.
    pub fn runs(&self) -> Runs<'_>
        ensures { pair_of result ≡ self.now }
    {
        self.owned.runs()
    }

    /// Callers may run it: a law for those who hold it.
    pub fn kept(&self)
        ensures { MayRun self.now }
    {
        self.owned.runs().kept();
    }

    /// What the steps of entries are told.
    #[inline(always)]
    pub fn program(&self) -> Program<'_>
        ensures { result ≡ self.now.target }
    {
        self.owned
            .runs()
            .program(self.rows.as_slice(), &self.fields)
    }
}

/// What callers run, borrowed, beside the same tables.
#[derive(Drop)]
pub struct Ready<'a> {
    runs: Runs<'a>,
    rows: [[bool; 8]; 16],
    fields: FieldTable,
}

impl<'a> Model for Ready<'a> {
    ghost use Rattle.caller_parts.specs.Spared.{KeptIs};
    ghost use Rattle.caller_parts.specs.FieldTables.{IsFieldTable};
    ghost use Rattle.barrier_check.specs.Paired.{Paired};
    ghost use Rattle.core_ground.specs.Running.{pair_of};

    ghost Value = { Paired };

    ghost view = { λ r. pair_of r.runs };

    ghost invariant = { λ r. KeptIs (pair_of r.runs).target r.rows × IsFieldTable (pair_of r.runs).target.fields r.fields };
}

impl<'a> Ready<'a> {
    /// The tables are made here, once for many steps. Takes no memory.
    pub fn new(runs: Runs<'a>) -> Ready<'a>
        ensures { result ≡ pair_of runs.entry }
    {
        runs.kept();
        let rows = table_of(runs);
        let fields = FieldTable::of(runs.fields());
        Ready { runs, rows, fields }
    }

    /// What the steps of entries are told.
    pub fn program(&self) -> Program<'_>
        ensures { result ≡ self.now.target }
    {
        self.runs.program(self.rows.as_slice(), &self.fields)
    }
}
