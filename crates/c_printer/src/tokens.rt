//! The tokens of a line, and the bytes of each.

ghost use Rattle.std.specs.Prelude.{◌≡◌, ◌++◌, OnOk};
ghost use Rattle.c_printer.specs.Names.{names_of};
ghost use Rattle.c_printer.specs.Words.{sign_word, numbered, constant_word, parameter_word, operand_word, answer_word, entry_word, token_word, token_line};

use crate::locals::{Table, local_name};
use c_language::lines::{Answer, Operand, Parameter};
use oa_text::put_decimal;
use std::alloc::{AllocError, Global};

/// A token that is the same in every header.
#[derive(Clone, Copy)]
pub enum Sign {
    Becomes,
    Semicolon,
    Comma,
    Open,
    Close,
    OpenBracket,
    CloseBracket,
    OpenBrace,
    CloseBrace,
    Plus,
    Minus,
    Star,
    Slash,
    Percent,
    Equal,
    Differ,
    Less,
    Greater,
    Question,
    Colon,
    Address,
    Goto,
    If,
    Return,
    Uint64,
    /// The temporary of an exchange.
    Temporary,
    Reply,
    Caller,
    /// The word of the phase.
    Phase,
    /// The array of the words of the callers.
    Row,
    Warning,
    Hazard,
    Status,
    Link,
    /// The array of the heads of the kinds.
    Head,
    Word,
    Root,
    RootStride,
    /// The array of the caller's bits.
    Noted,
    Cradle,
}

/// A name that begins with the header's own.
#[derive(Clone, Copy)]
pub enum Entry {
    Load,
    Store,
    Swap,
    Answer(Answer),
    /// A function.
    Claim(u32),
}

/// A token of a line.
#[derive(Clone, Copy)]
pub enum Token {
    Sign(Sign),
    Operand(Operand),
    /// The label of a line.
    Label(u64),
    /// The array of the fields of a kind.
    Field(u32),
    /// How many slots stand below those of a kind.
    Below(u32),
    /// How many words there are from one node of a kind to the next.
    Stride(u32),
    Entry(Entry),
}

/// The bytes of a sign.
pub fn sign_word(sign: Sign) -> &'static [u8]
    ensures { result.now ≡ sign_word sign }
{
    match sign {
        Sign::Becomes => b"=",
        Sign::Semicolon => b";",
        Sign::Comma => b",",
        Sign::Open => b"(",
        Sign::Close => b")",
        Sign::OpenBracket => b"[",
        Sign::CloseBracket => b"]",
        Sign::OpenBrace => b"{",
        Sign::CloseBrace => b"}",
        Sign::Plus => b"+",
        Sign::Minus => b"-",
        Sign::Star => b"*",
        Sign::Slash => b"/",
        Sign::Percent => b"%",
        Sign::Equal => b"==",
        Sign::Differ => b"!=",
        Sign::Less => b"<",
        Sign::Greater => b">",
        Sign::Question => b"?",
        Sign::Colon => b":",
        Sign::Address => b"&",
        Sign::Goto => b"goto",
        Sign::If => b"if",
        Sign::Return => b"return",
        Sign::Uint64 => b"uint64_t",
        Sign::Temporary => b"w",
        Sign::Reply => b"reply",
        Sign::Caller => b"caller",
        Sign::Phase => b"pool->phase.word",
        Sign::Row => b"row",
        Sign::Warning => b".warning",
        Sign::Hazard => b".hazard",
        Sign::Status => b"status",
        Sign::Link => b"link",
        Sign::Head => b"head",
        Sign::Word => b".word",
        Sign::Root => b"root",
        Sign::RootStride => b"root_stride",
        Sign::Noted => b"noted",
        Sign::Cradle => b"cradle",
    }
}

/// Adds bytes and a number in decimal.
///
/// # Errors
/// Memory ran out.
fn put_numbered(
    alloc: Global,
    out: &mut Vec<u8>,
    bytes: &[u8],
    number: u64,
) -> Result<(), AllocError>
    ensures { OnOk result (out.new.items ≡ out.old.items ++ numbered bytes.now number) }
{
    out.extend_from_slice(bytes)?;
    put_decimal(alloc, out, number)
}

/// Adds a constant. The suffix makes each of them 64 bits wide.
///
/// # Errors
/// Memory ran out.
fn put_constant(alloc: Global, out: &mut Vec<u8>, number: u64) -> Result<(), AllocError>
    ensures { OnOk result (out.new.items ≡ out.old.items ++ constant_word number) }
{
    put_decimal(alloc, out, number)?;
    out.extend_from_slice(b"ull")
}

fn put_parameter(alloc: Global, out: &mut Vec<u8>, parameter: Parameter) -> Result<(), AllocError>
    ensures { OnOk result (out.new.items ≡ out.old.items ++ parameter_word parameter) }
{
    match parameter {
        Parameter::Slots => out.extend_from_slice(b"slots"),
        Parameter::Callers => out.extend_from_slice(b"callers"),
        Parameter::LastPhase => out.extend_from_slice(b"last_phase"),
        Parameter::FirstSlot(k) => put_numbered(alloc, out, b"first_", k as u64),
        Parameter::Tops => out.extend_from_slice(b"tops"),
        Parameter::Own => out.extend_from_slice(b"own"),
    }
}

fn put_operand(
    alloc: Global,
    out: &mut Vec<u8>,
    table: Table,
    operand: Operand,
) -> Result<(), AllocError>
    ensures { OnOk result (out.new.items ≡ out.old.items ++ operand_word (names_of table) operand) }
{
    match operand {
        Operand::Number(n) => put_constant(alloc, out, n),
        Operand::Local(d) => out.extend_from_slice(local_name(table, d)),
        Operand::Of(parameter) => put_parameter(alloc, out, parameter),
    }
}

fn answer_word(answer: Answer) -> &'static [u8]
    ensures { result.now ≡ answer_word answer }
{
    match answer {
        Answer::Number => b"_Number",
        Answer::Nothing => b"_Nothing",
        Answer::Full => b"_Full",
        Answer::Phases => b"_Phases",
    }
}

fn put_entry(alloc: Global, out: &mut Vec<u8>, name: &[u8], entry: Entry) -> Result<(), AllocError>
    ensures { OnOk result (out.new.items ≡ out.old.items ++ entry_word name.now entry) }
{
    out.extend_from_slice(name)?;
    match entry {
        Entry::Load => out.extend_from_slice(b"_LOAD"),
        Entry::Store => out.extend_from_slice(b"_STORE"),
        Entry::Swap => out.extend_from_slice(b"_SWAP"),
        Entry::Answer(answer) => out.extend_from_slice(answer_word(answer)),
        Entry::Claim(function) => put_numbered(alloc, out, b"_Claim", function as u64),
    }
}

/// Adds the bytes of a token.
///
/// # Errors
/// Memory ran out.
fn put_token(
    alloc: Global,
    out: &mut Vec<u8>,
    name: &[u8],
    table: Table,
    token: Token,
) -> Result<(), AllocError>
    ensures { OnOk result (out.new.items ≡ out.old.items ++ token_word name.now (names_of table) token) }
{
    match token {
        Token::Sign(sign) => out.extend_from_slice(sign_word(sign)),
        Token::Operand(operand) => put_operand(alloc, out, table, operand),
        Token::Label(l) => put_numbered(alloc, out, b"line_", l),
        Token::Field(k) => put_numbered(alloc, out, b"field_", k as u64),
        Token::Below(k) => put_numbered(alloc, out, b"below_", k as u64),
        Token::Stride(k) => put_numbered(alloc, out, b"stride_", k as u64),
        Token::Entry(entry) => put_entry(alloc, out, name, entry),
    }
}

/// Adds each token after a space, and a newline.
///
/// # Errors
/// Memory ran out.
pub fn put_tokens(
    alloc: Global,
    out: &mut Vec<u8>,
    name: &[u8],
    table: Table,
    tokens: &[Token],
) -> Result<(), AllocError>
    ensures { OnOk result (out.new.items ≡ out.old.items ++ token_line name.now (names_of table) tokens.now) }
{
    for token in tokens {
        out.push(b' ')?;
        put_token(alloc, out, name, table, *token)?;
    }
    out.push(b'\n')?;
    Ok(())
}
