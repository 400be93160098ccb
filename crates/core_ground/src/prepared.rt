//! A barred target with what its wrap-ups keep, and where its fields stand.

ghost use Rattle.std.specs.Prelude.{◌≡◌, ◌<◌, length, slice_get};
ghost use Rattle.barrier_check.specs.Paired.{IsSound};
ghost use Rattle.caller_parts.specs.Spared.{KeptIs};
ghost use Rattle.caller_parts.specs.FieldTables.{IsFieldTable};
ghost use Rattle.core_ground.specs.Running.{pair_of};
ghost use Rattle.core_ground.specs.Tables.{keeps_at, row_at, table_of};

use crate::running::Runs;
use barrier_check::Barred;
use caller_parts::Program;
use caller_parts::fields::FieldTable;
use std::marker::Model;

/// A barred target with the tables of what its wrap-ups keep and of its fields.
#[derive(Drop)]
pub struct Prepared<'a> {
    barred: &'a Barred,
    rows: [[bool; 8]; 16],
    fields: FieldTable,
}

impl<'a> Model for Prepared<'a> {
    ghost use Rattle.caller_parts.specs.Spared.{KeptIs};
    ghost use Rattle.caller_parts.specs.FieldTables.{IsFieldTable};
    ghost use Rattle.barrier_check.specs.Paired.{Paired};

    ghost Value = { Paired };

    ghost view = { λ p. p.barred.now };

    ghost invariant = { λ p. KeptIs p.barred.now.target p.rows × IsFieldTable p.barred.now.target.fields p.fields };
}

pub(crate) fn keeps_register(barred: &Barred, op: u8, register: u8) -> bool
    requires op { op < length barred.now.target.ops }
    requires register { register < 8 }
    ensures { result ≡ keeps_at (slice_get barred.now.target.ops op) register }
{
    barred.kept();
    barred.is_kept(op, register)
}

#[tactic(auto, using(crate::proofs::Keeping::kept_by_none))]
fn keeps_at(runs: Runs, op: u8, register: u8) -> bool
    requires { register < 8 }
    ensures { result ≡ keeps_at (slice_get (pair_of runs.entry).target.ops op) register }
{
    if (op as usize) < runs.op_count() {
        return runs.keeps(op, register);
    }
    false
}

fn row_at(runs: Runs, op: u8) -> [bool; 8]
    ensures { result ≡ row_at (pair_of runs.entry).target op }
{
    [
        keeps_at(runs, op, 0),
        keeps_at(runs, op, 1),
        keeps_at(runs, op, 2),
        keeps_at(runs, op, 3),
        keeps_at(runs, op, 4),
        keeps_at(runs, op, 5),
        keeps_at(runs, op, 6),
        keeps_at(runs, op, 7),
    ]
}

/// A target has no more than sixteen operations.
pub(crate) fn table_of(runs: Runs) -> [[bool; 8]; 16]
    ensures { result ≡ table_of (pair_of runs.entry).target }
{
    [
        row_at(runs, 0),
        row_at(runs, 1),
        row_at(runs, 2),
        row_at(runs, 3),
        row_at(runs, 4),
        row_at(runs, 5),
        row_at(runs, 6),
        row_at(runs, 7),
        row_at(runs, 8),
        row_at(runs, 9),
        row_at(runs, 10),
        row_at(runs, 11),
        row_at(runs, 12),
        row_at(runs, 13),
        row_at(runs, 14),
        row_at(runs, 15),
    ]
}

impl<'a> Prepared<'a> {
    /// The tables are made here, once for many steps.
    pub fn new(barred: &'a Barred) -> Prepared<'a>
        ensures { result ≡ barred.now }
    {
        barred.kept();
        let rows = table_of(Runs::Barred(barred));
        let fields = FieldTable::of(barred.target().fields.items());
        Prepared {
            barred,
            rows,
            fields,
        }
    }

    /// What every one keeps: a law for those who hold one.
    pub fn kept(&self)
        ensures { IsSound self.now }
    {
        self.barred.kept();
    }

    /// The target with its source.
    pub fn barred(&self) -> &'a Barred
        ensures { result.now ≡ self.now }
    {
        self.barred
    }

    /// What the steps of entries are told.
    pub fn program(&self) -> Program<'_>
        ensures same { result ≡ self.now.target }
        ensures sound { IsSound self.now }
    {
        self.kept();
        Program::new(self.barred.target(), self.rows.as_slice(), &self.fields)
    }
}
