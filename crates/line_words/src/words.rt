//! The words of a line, taken one by one.

ghost use Rattle.std.specs.Prelude.{◌≡◌, ◌-◌, ◌≤◌, ◌<◌, slice_get, length, [], ◌∷◌, IfOk, MatchOption, drop};
ghost use Rattle.std.specs.List.{list_all};
ghost use Rattle.oa_text.specs.Shown.{line_shown};
ghost use Rattle.norm_lang.specs.LineWords.{is_lower, is_name_byte, is_name, word_at, end_at, name_at, number_at, is_positive, positive_at, value_of, up_to, register_of, register_in, register_at, owner_at, holding_at, kind_of_holding, spelled_kind, node_in, start_in, start_at, is_great, node_of, start_of, is_owner, is_match};
ghost use Rattle.norm_lang.specs.Declarations.{is_reserved};
ghost use Rattle.norm_lang.specs.Grammar.{is_comment, fault_number};
ghost use Rattle.line_words.specs.Answered.{Reads};
ghost use Rattle.line_words.specs.Faults.{number_of_fault};
ghost use Rattle.line_words.specs.Shown.{start_shown, holding_shown};
ghost use Rattle.line_words.specs.Lines.{words_in, first_word, after_owner, after_holding};

use crate::fault::Fault;
use crate::number::number_in;
use crate::operands::{kind_named, known};
use norm_lang::text::{FieldKind, Name, Reg, Start, Version};
use oa_text::{Line, TextFault, Tokens, tokens};
use std::marker::Model;

/// The words of a line that are left. Each method but `new`, `owner` and `holding` takes one word, even if it answers an
/// error or `None`; if no word is left, none is left after it. `owner` and `holding` take what their second clause says.
/// A reader that reads a line to its end takes the words themselves, so that none is left to its caller.
#[derive(Drop)]
pub struct Words<'a> {
    tokens: Tokens<'a>,
}

impl<'a> Model for Words<'a> {
    ghost use Rattle.std.specs.Prelude.{ℕ, List, map};

    ghost Value = { List (List ℕ) };

    ghost view = { λ s. map (λ token. token.bytes) s.tokens };
}

/// What a field or a root holds, as it is spelled: numbers, or references to nodes of a kind, `None` if it isn't declared.
#[derive(Clone, Copy)]
pub enum Holding {
    Numbers,
    Nodes(Option<u8>),
}

/// A first value as it is spelled: a number, `null`, or `@J`. A number that exceeds 2^64 - 1 is none.
#[derive(Clone, Copy)]
pub enum StartWord {
    Value(Option<u64>),
    Null,
    At(Option<u64>),
}

/// What is wrong with bytes.
fn fault_of_bytes(fault: TextFault) -> Fault
    ensures { number_of_fault result ≡ fault_number fault }
{
    match fault {
        TextFault::Byte { .. } => Fault::Byte,
        TextFault::Number { .. } => Fault::Number,
        TextFault::LineLong { .. } => Fault::LineLong,
    }
}

impl<'a> Words<'a> {
    /// The words of a line, unless its bytes have a fault.
    ///
    /// # Errors
    ///
    /// The first of these: `LineLong` if the line has more than 200 bytes, `Byte` if one of them is neither a tab nor
    /// from space to `~`.
    pub fn new(line: Line<'a>) -> Result<Words<'a>, Fault>
        ensures { Reads (λ words. words) result (words_in (line_shown line.entry)) }
    {
        match tokens(line) {
            Ok(tokens) => Ok(Words { tokens }),
            Err(fault) => Err(fault_of_bytes(fault)),
        }
    }

    /// The first word, unless the line is skipped.
    pub fn first(&mut self) -> Option<&'a [u8]>
        ensures says { MatchOption result (first_word self.old ≡ None) (λ word. first_word self.old ≡ Some (word.now, self.new)) }
        ensures taken { self.new ≡ drop 1 self.old }
    {
        let word = self.tokens.next()?.bytes();
        if comment(word) { None } else { Some(word) }
    }

    /// The next word, if there is one.
    pub fn next_word(&mut self) -> Option<&'a [u8]>
        ensures says { MatchOption result (self.old ≡ []) (λ word. self.old ≡ word.now ∷ self.new) }
        ensures taken { self.new ≡ drop 1 self.old }
    {
        Some(self.tokens.next()?.bytes())
    }

    /// The next word, which must be there.
    ///
    /// # Errors
    ///
    /// `Form` if no word is left.
    pub fn word(&mut self) -> Result<&'a [u8], Fault>
        ensures says { Reads (λ word. (word.now, self.new)) result (word_at self.old) }
        ensures taken { self.new ≡ drop 1 self.old }
    {
        match self.tokens.next() {
            Some(token) => Ok(token.bytes()),
            None => Err(Fault::Form),
        }
    }

    /// The end of the line.
    ///
    /// # Errors
    ///
    /// `Form` if a word is left.
    pub fn end(&mut self) -> Result<(), Fault>
        ensures says { Reads (λ _. tt) result (end_at self.old) }
        ensures taken { self.new ≡ drop 1 self.old }
    {
        match self.tokens.next() {
            Some(_) => Err(Fault::Form),
            None => Ok(()),
        }
    }

    /// A name.
    ///
    /// # Errors
    ///
    /// `Form` if no word is left, or if the next one is no name.
    pub fn name(&mut self) -> Result<&'a [u8], Fault>
        ensures says { Reads (λ name. (name.now, self.new)) result (name_at self.old) }
        ensures taken { self.new ≡ drop 1 self.old }
    {
        let word = self.word()?;
        if name(word) {
            Ok(word)
        } else {
            Err(Fault::Form)
        }
    }

    /// A number as it is spelled: `None` if it exceeds 2^64 - 1.
    ///
    /// # Errors
    ///
    /// `Form` if no word is left, or if the next one spells no number.
    pub fn number(&mut self) -> Result<Option<u64>, Fault>
        ensures says { Reads (λ n. (n, self.new)) result (number_at self.old) }
        ensures taken { self.new ≡ drop 1 self.old }
    {
        number_in(self.word()?)
    }

    /// A number that is to be at least 1.
    ///
    /// # Errors
    ///
    /// `Form` if no word is left, or if the next one spells no number, or 0.
    pub fn positive(&mut self) -> Result<Option<u64>, Fault>
        ensures says { Reads (λ n. (n, self.new)) result (positive_at self.old) }
        ensures taken { self.new ≡ drop 1 self.old }
    {
        let n = self.number()?;
        if positive(n) { Ok(n) } else { Err(Fault::Form) }
    }

    /// `n0` to `n7` or `r0` to `r7`.
    ///
    /// # Errors
    ///
    /// `Form` if no word is left, or if the next one names no register.
    pub fn register(&mut self) -> Result<Reg, Fault>
        ensures says { Reads (λ r. (r, self.new)) result (register_at self.old) }
        ensures taken { self.new ≡ drop 1 self.old }
    {
        register_in(self.word()?)
    }

    /// The kind that the line means, `None` if it isn't declared. A line of the first version takes no word for it, and
    /// means the first kind.
    ///
    /// # Errors
    ///
    /// `Form` in the second version if no word is left, or if the next one is no name.
    pub fn owner(&mut self, version: Version, kinds: &[Name]) -> Result<Option<u8>, Fault>
        requires { length kinds.now ≤ 4 }
        ensures says { Reads (λ owner. (owner, self.new)) result (owner_at version kinds.now self.old) }
        ensures taken { self.new ≡ after_owner version self.old }
    {
        match version {
            Version::First => Ok(Some(0)),
            Version::Second => Ok(kind_named(kinds, self.name()?)),
        }
    }

    /// `num`, or `ref` and the kind that the line means.
    ///
    /// # Errors
    ///
    /// `Form` if the words are others.
    pub fn holding(&mut self, version: Version, kinds: &[Name]) -> Result<Holding, Fault>
        requires { length kinds.now ≤ 4 }
        ensures says { Reads (λ holding. (holding_shown holding, self.new)) result (holding_at version kinds.now self.old) }
        ensures taken { self.new ≡ after_holding version self.old }
    {
        let word = self.word()?;
        if word == b"num".as_slice() {
            Ok(Holding::Numbers)
        } else if word == b"ref".as_slice() {
            Ok(Holding::Nodes(self.owner(version, kinds)?))
        } else {
            Err(Fault::Form)
        }
    }

    /// A first value of a kind as it is spelled.
    ///
    /// # Errors
    ///
    /// `Form` if no word is left, or if the next one spells no first value of the kind.
    pub fn start(&mut self, kind: FieldKind) -> Result<StartWord, Fault>
        ensures says { Reads (λ start. (start_shown start, self.new)) result (start_at kind self.old) }
        ensures taken { self.new ≡ drop 1 self.old }
    {
        start_in(kind, self.word()?)
    }
}

/// Whether a word begins with `#`.
fn comment(word: &[u8]) -> bool
    ensures { result ≡ is_comment word.now }
{
    match word.split_first() {
        None => false,
        Some((first, _)) => *first == b'#',
    }
}

fn lower(b: u8) -> bool
    ensures { result ≡ is_lower b }
{
    b'a' <= b && b <= b'z'
}

fn name_byte(b: u8) -> bool
    ensures { result ≡ is_name_byte b }
{
    lower(b) || b'0' <= b && b <= b'9' || b == b'_'
}

fn name_bytes(bytes: &[u8]) -> bool
    ensures { result ≡ list_all is_name_byte bytes.now }
{
    bytes.iter().all(|b| name_byte(*b))
}

/// Whether a word is spelled as a name.
pub fn name(word: &[u8]) -> bool
    ensures { result ≡ is_name word.now }
{
    match word.split_first() {
        None => false,
        Some((first, rest)) => lower(*first) && (name_bytes(rest) && rest.len() <= 15),
    }
}

/// Whether a number as it is spelled is at least 1.
fn positive(n: Option<u64>) -> bool
    ensures { result ≡ is_positive n }
{
    match n {
        None => true,
        Some(n) => 0 < n,
    }
}

/// The register of a kind, by the letter: `n` is for numbers and `r` for references.
fn register_of(letter: u8, number: u8) -> Result<Reg, Fault>
    ensures { Reads (λ r. r) result (register_of letter number) }
{
    if letter == b'n' {
        Ok(Reg::Num(number))
    } else if letter == b'r' {
        Ok(Reg::Ref(number))
    } else {
        Err(Fault::Form)
    }
}

fn register_in(word: &[u8]) -> Result<Reg, Fault>
    ensures { Reads (λ r. r) result (register_in word.now) }
{
    match word {
        [letter, digit] if b'0' <= *digit && *digit <= b'7' => {
            register_of(*letter, *digit - b'0')
        }
        _ => Err(Fault::Form),
    }
}

/// What is held, if its kind is declared.
///
/// # Errors
///
/// `UnknownName` if the kind isn't declared.
pub fn kind_of_holding(holding: Holding) -> Result<FieldKind, Fault>
    ensures { Reads (λ kind. kind) result (kind_of_holding (holding_shown holding)) }
{
    match holding {
        Holding::Numbers => Ok(FieldKind::Number),
        Holding::Nodes(owner) => Ok(FieldKind::Reference(known(owner)?)),
    }
}

/// What is held as far as the spelling of a first value goes: references of all kinds are alike.
pub fn spelled_kind(holding: Holding) -> FieldKind
    ensures { result ≡ spelled_kind (holding_shown holding) }
{
    match holding {
        Holding::Numbers => FieldKind::Number,
        Holding::Nodes(owner) => FieldKind::Reference(owner.unwrap_or(0)),
    }
}

/// `@J`
fn node_in(word: &[u8]) -> Result<StartWord, Fault>
    ensures { Reads start_shown result (node_in word.now) }
{
    match word {
        [b'@', number @ ..] => Ok(StartWord::At(number_in(number)?)),
        _ => Err(Fault::Form),
    }
}

fn start_in(kind: FieldKind, word: &[u8]) -> Result<StartWord, Fault>
    ensures { Reads start_shown result (start_in kind word.now) }
{
    match kind {
        FieldKind::Number => Ok(StartWord::Value(number_in(word)?)),
        FieldKind::Reference(_) => {
            if word == b"null".as_slice() {
                Ok(StartWord::Null)
            } else {
                node_in(word)
            }
        }
    }
}

/// The number, unless it exceeds 2^64 - 1.
///
/// # Errors
///
/// `Number` if it exceeds 2^64 - 1.
pub fn value_of(n: Option<u64>) -> Result<u64, Fault>
    ensures { Reads (λ n. n) result (value_of n) }
{
    n.ok_or(Fault::Number)
}

/// Whether a line that begins with this word begins a part of a document, so that no operation may have the name.
pub fn is_reserved(name: &[u8]) -> bool
    ensures { result ≡ is_reserved name.now }
{
    name == b"script".as_slice() || name == b"schedule".as_slice()
}

/// A number up to a limit.
///
/// # Errors
///
/// `TooMany` if it exceeds the limit.
pub fn up_to(limit: u64, n: u64) -> Result<u64, Fault>
    ensures number { Reads (λ n. n) result (up_to limit n) }
    ensures most { IfOk result (λ n. n ≤ limit) }
{
    if n <= limit {
        Ok(n)
    } else {
        Err(Fault::TooMany)
    }
}

/// Whether a first value is a number that exceeds 2^64 - 1.
pub fn great(start: StartWord) -> bool
    ensures { result ≡ is_great (start_shown start) }
{
    match start {
        StartWord::Value(None) => true,
        _ => false,
    }
}

/// The initial node `@J` of so many.
fn node_of(count: u32, j: Option<u64>) -> Result<Start, Fault>
    ensures { Reads (λ start. start) result (node_of count j) }
{
    match j {
        None => Err(Fault::UnknownName),
        Some(j) => {
            if 0 < j && j <= count as u64 {
                Ok(Start::Node(j as u32))
            } else {
                Err(Fault::UnknownName)
            }
        }
    }
}

/// The first value that a word says, with so many initial nodes.
///
/// # Errors
///
/// `Number` if it is a number that exceeds 2^64 - 1, `UnknownName` if it is `@J` and there is no initial node J.
pub fn start_of(count: u32, start: StartWord) -> Result<Start, Fault>
    ensures { Reads (λ start. start) result (start_of count (start_shown start)) }
{
    match start {
        StartWord::Value(n) => Ok(Start::Value(value_of(n)?)),
        StartWord::Null => Ok(Start::Node(0)),
        StartWord::At(j) => node_of(count, j),
    }
}

/// Whether the initial node of this number is of this kind: `owners` are the kinds of the initial nodes.
fn owned(owners: &[u8], node: u32, kind: u8) -> bool
    requires { 0 < node }
    ensures { result ≡ is_owner (slice_get owners.now (node - 1)) kind }
{
    match owners.get(node as usize - 1) {
        None => false,
        Some(owner) => *owner == kind,
    }
}

/// Whether a first value fits what its place holds: `owners` are the kinds of the initial nodes.
pub fn fits(owners: &[u8], kind: FieldKind, start: Start) -> bool
    ensures { result ≡ is_match owners.now kind start }
{
    match kind {
        FieldKind::Number => true,
        FieldKind::Reference(k) => match start {
            Start::Value(_) => true,
            Start::Node(node) => node == 0 || owned(owners, node, k),
        },
    }
}
