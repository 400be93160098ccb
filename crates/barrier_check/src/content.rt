//! What instructions say that neither jump nor commit.

ghost use Rattle.std.specs.Prelude.{◌≡◌, Some};
ghost use Rattle.barrier_check.specs.Contents.{no_operand, one_operand, two_operands, three_operands, content_of};

use crate::same::Same;
use norm_lang::text::{Instr, Reg};

/// Which instruction it is.
#[derive(Clone, Copy, PartialEq, Eq)]
pub(crate) enum Kind {
    Set,
    Mov,
    Add,
    Sub,
    Rem,
    Mark,
    Unmark,
    Null,
    LoadRoot,
    LoadPick,
    LoadField,
    New,
    Put,
    Return,
    ReturnNone,
    Again,
}

/// The registers of an instruction in the order of their words, as many as it has.
#[derive(Clone, Copy)]
struct Operands {
    first: Option<Reg>,
    second: Option<Reg>,
    third: Option<Reg>,
}

impl Same for Operands {
    fn is_same(&self, other: &Operands) -> bool {
        self.first == other.first && self.second == other.second && self.third == other.third
    }
}

/// What an instruction says. The number is that of a root, of a field or of a node kind, what is set, or a divisor; the count is that of
/// a pick's roots.
#[derive(Clone, Copy)]
pub(crate) struct Content {
    kind: Kind,
    operands: Operands,
    number: u64,
    count: u64,
}

impl Same for Content {
    fn is_same(&self, other: &Content) -> bool {
        self.kind == other.kind
            && self.operands.is_same(&other.operands)
            && self.number == other.number
            && self.count == other.count
    }
}

const fn none(kind: Kind) -> Option<Content>
    ensures { result ≡ Some (record { kind = kind; operands = no_operand; number = 0; count = 0 }) }
{
    let operands = Operands {
        first: None,
        second: None,
        third: None,
    };
    Some(Content {
        kind,
        operands,
        number: 0,
        count: 0,
    })
}

const fn one(kind: Kind, first: Reg, number: u64) -> Option<Content>
    ensures { result ≡ Some (record { kind = kind; operands = one_operand first; number = number; count = 0 }) }
{
    let operands = Operands {
        first: Some(first),
        second: None,
        third: None,
    };
    Some(Content {
        kind,
        operands,
        number,
        count: 0,
    })
}

const fn two(kind: Kind, first: Reg, second: Reg, number: u64, count: u64) -> Option<Content>
    ensures { result ≡ Some (record { kind = kind; operands = two_operands first second; number = number; count = count }) }
{
    let operands = Operands {
        first: Some(first),
        second: Some(second),
        third: None,
    };
    Some(Content {
        kind,
        operands,
        number,
        count,
    })
}

const fn three(kind: Kind, first: Reg, second: Reg, third: Reg) -> Option<Content>
    ensures { result ≡ Some (record { kind = kind; operands = three_operands first second third; number = 0; count = 0 }) }
{
    let operands = Operands {
        first: Some(first),
        second: Some(second),
        third: Some(third),
    };
    Some(Content {
        kind,
        operands,
        number: 0,
        count: 0,
    })
}

/// What an instruction says, if it neither jumps nor commits.
pub(crate) fn content_of(instr: &Instr) -> Option<Content>
    ensures { result ≡ content_of instr.now }
{
    match instr {
        Instr::Set(d, n) => one(Kind::Set, *d, *n),
        Instr::Mov(d, a) => two(Kind::Mov, *d, *a, 0, 0),
        Instr::Add(d, a, b) => three(Kind::Add, *d, *a, *b),
        Instr::Sub(d, a, b) => three(Kind::Sub, *d, *a, *b),
        Instr::Rem(d, a, n) => two(Kind::Rem, *d, *a, *n, 0),
        Instr::Mark(d, a) => two(Kind::Mark, *d, *a, 0, 0),
        Instr::Unmark(d, a) => two(Kind::Unmark, *d, *a, 0, 0),
        Instr::Null(d) => one(Kind::Null, *d, 0),
        Instr::LoadRoot(d, x) => one(Kind::LoadRoot, *d, *x as u64),
        Instr::LoadPick(d, x, n, a) => two(Kind::LoadPick, *d, *a, *x as u64, *n as u64),
        Instr::LoadField(d, a, x) => two(Kind::LoadField, *d, *a, *x as u64, 0),
        Instr::New(d, kind) => one(Kind::New, *d, *kind as u64),
        Instr::Put(a, x, b) => two(Kind::Put, *a, *b, *x as u64, 0),
        Instr::Return(a) => one(Kind::Return, *a, 0),
        Instr::ReturnNone => none(Kind::ReturnNone),
        Instr::Again => none(Kind::Again),
        _ => None,
    }
}
