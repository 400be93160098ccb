//! Lines of a C function over `uint64_t` locals and atomic words.
//!
//! Locals are 0 when a function begins; those of an operation's arguments are the arguments. Bits and cradles belong to the caller: they are 0
//! when the pool opens, and outlive a function.

/// A number that the pool, its header or the caller keeps while a function runs.
#[derive(Debug, Clone, Copy, PartialEq, Eq)]
pub enum Parameter {
    /// How many slots there are.
    Slots,
    /// How many callers there are.
    Callers,
    /// The last phase.
    LastPhase,
    /// The first slot of a kind.
    FirstSlot(u32),
    /// The tops of the row: a head's slot is its word modulo this number, and its phase is the word divided by it. A constant of the header.
    Tops,
    /// The number of the caller that runs the function.
    Own,
}

/// What a line reads without an access.
#[derive(Debug, Clone, Copy, PartialEq, Eq)]
pub enum Operand {
    /// A constant.
    Number(u64),
    /// A local.
    Local(u32),
    /// A number of the pool.
    Of(Parameter),
}

/// A value, of one operation on `uint64_t`: sums, differences and products wrap at 2^64.
#[derive(Debug, Clone, Copy, PartialEq, Eq)]
pub enum Value {
    /// `a`.
    Is(Operand),
    /// `a + b`.
    Plus(Operand, Operand),
    /// `a - b`.
    Minus(Operand, Operand),
    /// `a * b`.
    Times(Operand, Operand),
    /// `a / b`. A function strays if b is 0.
    Over(Operand, Operand),
    /// `a % b`. A function strays if b is 0.
    Rest(Operand, Operand),
}

/// An atomic word.
#[derive(Debug, Clone, Copy, PartialEq, Eq)]
pub enum Place {
    /// The phase.
    Phase,
    /// The warning of a caller.
    Warning(Operand),
    /// The hazard of a caller and a register.
    Hazard(Operand, Operand),
    /// The status of a slot.
    Status(Operand),
    /// Of a kind, a slot and a place: the slot's field at that place. A function strays if the slot is neither null nor of the kind, or
    /// if nodes of the kind have no such field.
    Field(u32, Operand, u32),
    /// The root so many cells after a first one.
    Root(u32, Operand),
    /// The head of a kind.
    Head(Operand),
    /// The link of a slot.
    Link(Operand),
}

/// A test of two operands.
#[derive(Debug, Clone, Copy, PartialEq, Eq)]
pub enum Test {
    /// `a == b`.
    Equal(Operand, Operand),
    /// `a != b`.
    Differ(Operand, Operand),
    /// `a < b`.
    Less(Operand, Operand),
}

/// How an operation ends for the program that called it.
#[derive(Debug, Clone, Copy, PartialEq, Eq)]
pub enum Answer {
    /// With a number.
    Number,
    /// Without a number.
    Nothing,
    /// There was no slot for a node.
    Full,
    /// The phases were over, at the number.
    Phases,
}

/// A line of a function. Lines are counted from 0; a function strays if it goes on at a line that isn't there.
#[derive(Debug, Clone, Copy, PartialEq, Eq)]
pub enum Line {
    /// A local becomes a value.
    Let(u32, Value),
    /// Goes on at a line.
    Goto(u32),
    /// Goes on at a line if a test holds.
    If(Test, u32),
    /// A local becomes the word at a place.
    Load(u32, Place),
    /// The word at a place becomes an operand. A function strays if it is a field of null.
    Store(Place, Operand),
    /// If the word at a place is the third, it becomes the fourth. The local becomes the word that was found. A function strays if the place is
    /// a field of null.
    Exchange(u32, Place, Operand, Operand),
    /// Sets the caller's bit of a slot, or of null. A function strays if there is no such slot.
    Note(Operand),
    /// Clears the caller's bit of a slot, or of null, and goes on at a line if it was set. A function strays if there is no such slot.
    IfNoted(Operand, u32),
    /// A local becomes what stands in a cradle. A function strays if there is no such cradle: there are sixteen.
    Get(u32, u32),
    /// What stands in a cradle becomes an operand. A function strays if there is no such cradle.
    Keep(u32, Operand),
    /// Runs a function from its first line on. A local becomes what that returns.
    Call(u32, u32),
    /// Returns an operand to the line that called the function. An operation strays here: no line called it.
    Return(Operand),
    /// Ends an operation with an answer, and an operand that is told with it. A function that a line called strays here.
    Reply(Answer, Operand),
}
