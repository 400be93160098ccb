//! How many lines a block has.

ghost use Rattle.std.specs.Prelude.{◌≡◌, ◌≤◌, ◌+◌, length, IsTrue};
ghost use Rattle.caller_parts.specs.KindCounts.{field_count};
ghost use Rattle.c_emission.specs.Exchanges.{place_size, retire_size, published_size, cas_size, entry_size, commit_size};
ghost use Rattle.c_emission.specs.Layout.{plain_size, block_size};
ghost use Rattle.c_emission.specs.Fitting.{has_few, has_few_exchanges};

use norm_lang::fields::count_of;
use norm_lang::text::{CasEntry, FieldDecl, Instr, Place, Reg};
use target_code::target::TargetInstr;

pub(crate) fn place_size(place: Place) -> u32
    ensures same { result ≡ place_size place }
    ensures few { result ≤ 6 }
{
    match place {
        Place::Root(_) => 2,
        Place::Field(_, _) => 6,
    }
}

fn retire_size(retire: Option<Reg>) -> u32
    ensures same { result ≡ retire_size retire }
    ensures few { result ≤ 6 }
{
    match retire {
        None => 0,
        Some(Reg::Num(_)) => 0,
        Some(Reg::Ref(_)) => 6,
    }
}

pub(crate) fn published_size(kinds: u32, replacement: Reg) -> u32
    requires { kinds ≤ 4 }
    ensures same { result ≡ published_size kinds replacement }
    ensures few { result ≤ 49 }
{
    match replacement {
        Reg::Num(_) => 0,
        Reg::Ref(_) => 1 + 12 * kinds,
    }
}

fn cas_size(exchange: CasEntry) -> u32
    ensures same { result ≡ cas_size exchange }
    ensures few { result ≤ 12 }
{
    place_size(exchange.place) + retire_size(exchange.retire)
}

pub(crate) fn entry_size(kinds: u32, exchange: CasEntry) -> u32
    requires { kinds ≤ 4 }
    ensures same { result ≡ entry_size kinds exchange }
    ensures few { result ≤ 62 }
{
    1 + place_size(exchange.place)
        + published_size(kinds, exchange.replacement)
        + retire_size(exchange.retire)
}

fn commit_size(kinds: u32, exchanges: &[CasEntry]) -> u32
    requires kinds { kinds ≤ 4 }
    requires few { length exchanges.now ≤ 4 }
    ensures same { result ≡ commit_size kinds exchanges.now }
    ensures few { result ≤ 250 }
{
    let mut size = 2;
    for exchange in exchanges {
        size += entry_size(kinds, *exchange);
    }
    size
}

fn new_size(fields: &[FieldDecl], kind: u8) -> u32
    requires { length fields.now ≤ 16 }
    ensures same { result ≡ 33 + field_count fields.now kind }
    ensures few { result ≤ 49 }
{
    33 + count_of(fields, kind) as u32
}

fn plain_size(kinds: u32, fields: &[FieldDecl], instr: &Instr) -> u32
    requires kinds { kinds ≤ 4 }
    requires fields { length fields.now ≤ 16 }
    requires few { IsTrue (has_few instr.now) }
    ensures same { result ≡ plain_size kinds fields.now instr.now }
    ensures few { result ≤ 250 }
{
    match instr {
        Instr::LoadRoot(_, _) => 1,
        Instr::LoadPick(_, _, _, _) => 2,
        Instr::LoadField(_, _, _) => 2,
        Instr::New(_, kind) => new_size(fields, *kind),
        Instr::Put(_, _, _) => 2,
        Instr::Cas(exchange, _) => cas_size(*exchange),
        Instr::Unmark(_, _) => 2,
        Instr::Mark(_, _) => 3,
        Instr::IfMarked(_, _) => 2,
        Instr::Commit(exchanges) => commit_size(kinds, exchanges.items()),
        Instr::Return(_) => 25,
        Instr::ReturnNone => 25,
        Instr::Again => 25,
        _ => 1,
    }
}

/// How many lines the block of an instruction has.
pub(crate) fn block_size(kinds: u32, fields: &[FieldDecl], instr: &TargetInstr) -> u32
    requires kinds { kinds ≤ 4 }
    requires fields { length fields.now ≤ 16 }
    requires few { IsTrue (has_few_exchanges instr.now) }
    ensures same { result ≡ block_size kinds fields.now instr.now }
    ensures few { result ≤ 250 }
{
    match instr {
        TargetInstr::Plain(instr) => plain_size(kinds, fields, instr),
        TargetInstr::Check => 2,
        TargetInstr::Guard(_) => 3,
    }
}
