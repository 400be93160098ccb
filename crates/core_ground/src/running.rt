//! What callers run: a barred target, or a text in normal form as it is.

ghost use Rattle.std.specs.Prelude.{◌≡◌, ◌<◌, length, slice_get};
ghost use Rattle.target_code.specs.Bare.{bare};
ghost use Rattle.caller_parts.specs.Spared.{KeptIs};
ghost use Rattle.caller_parts.specs.FieldTables.{IsFieldTable};
ghost use Rattle.core_ground.specs.Running.{pair_of, pair_owned, MayRun};
ghost use Rattle.core_ground.specs.Tables.{keeps_at};

use crate::prepared::keeps_register;
use barrier_check::Barred;
use caller_parts::Program;
use caller_parts::fields::FieldTable;
use norm_check::Normal;
use norm_lang::text::{FieldDecl, NodeDecl, RootDecl};

/// A barred target, or a text in normal form that is run as it is.
#[derive(Clone, Copy)]
pub enum Runs<'a> {
    Barred(&'a Barred),
    Bare(&'a Normal),
}

/// The same, owned.
#[derive(Drop)]
pub(crate) enum Owned {
    Barred(Barred),
    Bare(Normal),
}

impl Owned {
    pub(crate) fn runs(&self) -> Runs<'_>
        ensures { pair_of result ≡ pair_owned self.now }
    {
        match self {
            Owned::Barred(barred) => Runs::Barred(barred),
            Owned::Bare(normal) => Runs::Bare(normal),
        }
    }
}

fn bare_count(normal: &Normal) -> usize
    ensures { result ≡ length (bare normal.now).ops }
{
    normal.text().ops.items().len()
}

fn bare_register(normal: &Normal, op: u8, register: u8) -> bool
    requires op { op < length (bare normal.now).ops }
    requires register { register < 8 }
    ensures { result ≡ keeps_at (slice_get (bare normal.now).ops op) register }
{
    normal.kept();
    normal.is_kept(op, register)
}

impl<'a> Runs<'a> {
    /// Callers may run it: a law for those who hold it.
    #[tactic(auto, using(crate::proofs::Runnable::runnable, crate::proofs::Runnable::bare_runs))]
    pub fn kept(self)
        ensures { MayRun (pair_of self.entry) }
    {
        match self {
            Runs::Barred(barred) => barred.kept(),
            Runs::Bare(normal) => normal.kept(),
        }
    }

    /// Whether the wrap-up of an operation keeps a reference register.
    pub(crate) fn keeps(self, op: u8, register: u8) -> bool
        requires op { op < length (pair_of self).target.ops }
        requires register { register < 8 }
        ensures { result ≡ keeps_at (slice_get (pair_of self.entry).target.ops op) register }
    {
        match self {
            Runs::Barred(barred) => keeps_register(barred, op, register),
            Runs::Bare(normal) => bare_register(normal, op, register),
        }
    }

    /// How many operations it has.
    pub(crate) fn op_count(self) -> usize
        ensures { result ≡ length (pair_of self.entry).target.ops }
    {
        match self {
            Runs::Barred(barred) => barred.target().ops.items().len(),
            Runs::Bare(normal) => bare_count(normal),
        }
    }

    /// The fields of its kinds.
    pub(crate) fn fields(self) -> &'a [FieldDecl]
        ensures { result.now ≡ (pair_of self.entry).target.fields }
    {
        match self {
            Runs::Barred(barred) => barred.target().fields.items(),
            Runs::Bare(normal) => normal.text().fields.items(),
        }
    }

    /// Its roots.
    pub(crate) fn roots(self) -> &'a [RootDecl]
        ensures { result.now ≡ (pair_of self.entry).target.roots }
    {
        match self {
            Runs::Barred(barred) => barred.target().roots.items(),
            Runs::Bare(normal) => normal.text().roots.items(),
        }
    }

    /// Its initial nodes.
    pub(crate) fn nodes(self) -> &'a [NodeDecl]
        ensures { result.now ≡ (pair_of self.entry).target.nodes }
    {
        match self {
            Runs::Barred(barred) => barred.target().nodes.items(),
            Runs::Bare(normal) => normal.text().nodes.items(),
        }
    }

    /// What the steps of entries are told.
    #[inline(always)]
    pub(crate) fn program(self, kept: &'a [[bool; 8]], table: &'a FieldTable) -> Program<'a>
        requires kept { KeptIs (pair_of self).target kept.now }
        requires fields { IsFieldTable (pair_of self).target.fields table.now }
        ensures { result ≡ (pair_of self.entry).target }
    {
        match self {
            Runs::Barred(barred) => Program::new(barred.target(), kept, table),
            Runs::Bare(normal) => Program::bare(normal.text(), kept, table),
        }
    }
}
