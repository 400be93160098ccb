//! What a caller runs: a target, or a text as it is, with what its operations' wrap-ups keep.

ghost use Rattle.std.specs.Prelude.{◌≡◌, slice_get, slice_index_or};
ghost use Rattle.norm_lang.specs.KindFields.{place_of};
ghost use Rattle.target_code.specs.Bare.{bare};
ghost use Rattle.caller_parts.specs.KindCounts.{field_count};
ghost use Rattle.caller_parts.specs.FieldTables.{IsFieldTable};
ghost use Rattle.caller_parts.specs.Operands.{method_code};
ghost use Rattle.caller_parts.specs.Spared.{kept_by, none_spared, KeptIs};
ghost use Rattle.caller_parts.specs.Codes.{code_shown};

use crate::code::{Code, Source};
use crate::fields::FieldTable;
use norm_lang::fields::{count_of, place_of};
use norm_lang::text::Text;
use std::marker::Model;
use target_code::target::Target;

/// A target, or a text that is run as it is, for each of its operations which of the reference registers r0 to r7 its wrap-up keeps, and
/// the table of its fields.
#[derive(Drop)]
pub struct Program<'a> {
    source: Source<'a>,
    kept: &'a [[bool; 8]],
    table: &'a FieldTable,
}

impl<'a> Model for Program<'a> {
    ghost use Rattle.target_code.specs.declared.target.Target.{Target};
    ghost use Rattle.caller_parts.specs.Codes.{source_shown};
    ghost use Rattle.caller_parts.specs.Spared.{KeptIs};
    ghost use Rattle.caller_parts.specs.FieldTables.{IsFieldTable};

    ghost Value = { Target };

    ghost view = { λ p. source_shown p.source };

    ghost invariant = { λ p. KeptIs (source_shown p.source) p.kept.now × IsFieldTable (source_shown p.source).fields p.table.now };
}

impl<'a> Program<'a> {
    /// A target with its tables, of kept registers and of fields.
    pub fn new(target: &'a Target, kept: &'a [[bool; 8]], table: &'a FieldTable) -> Program<'a>
        requires kept { KeptIs target.now kept.now }
        requires fields { IsFieldTable target.now.fields table.now }
        ensures { result ≡ target.now }
    {
        Program {
            source: Source::Barred(target),
            kept,
            table,
        }
    }

    /// A text with its tables, which is run without checks and guards.
    pub fn bare(text: &'a Text, kept: &'a [[bool; 8]], table: &'a FieldTable) -> Program<'a>
        requires kept { KeptIs (bare text.now) kept.now }
        requires fields { IsFieldTable text.now.fields table.now }
        ensures { result ≡ bare text.now }
    {
        Program {
            source: Source::Bare(text),
            kept,
            table,
        }
    }

    /// The code of a method; none if there is no such operation.
    #[inline(always)]
    pub fn code(&self, op: u8, wrapup: bool) -> Code<'a>
        ensures { code_shown result ≡ method_code (slice_get self.now.ops op) wrapup }
    {
        self.source.code(op, wrapup)
    }

    /// The place of a field among those of its kind.
    #[tactic(auto, using(crate::proofs::Tables::place_small))]
    pub fn place_of(&self, field: u8) -> u32
        ensures { result ≡ place_of self.now.fields field }
    {
        match self.table.places.get(field as usize) {
            Some(place) => *place as u32,
            None => place_of(self.source.fields(), field) as u32,
        }
    }

    /// How many fields a kind has.
    pub fn field_count(&self, kind: u8) -> usize
        ensures { result ≡ field_count self.now.fields kind }
    {
        match self.table.counts.get(kind as usize) {
            Some(count) => *count,
            None => count_of(self.source.fields(), kind),
        }
    }

    /// What an operation's wrap-up keeps.
    pub fn kept_by(&self, op: u8) -> [bool; 8]
        ensures { result ≡ kept_by (slice_get self.now.ops op) }
    {
        kept_at(self.kept, op)
    }
}

fn kept_at(kept: &[[bool; 8]], op: u8) -> [bool; 8]
    ensures { result ≡ slice_index_or kept.now op none_spared }
{
    kept.get(op as usize).copied().unwrap_or([false; 8])
}
