//! What a document asks for.

use norm_lang::list::Listed;
use norm_lang::text::{Name, Text};
use schedule_turns::Turn;

/// Numbers, in order.
pub type Numbers = Listed<u64>;

/// A call of a script: the line that it stands at, the operation's name, and any count of arguments. Whether the text
/// has such an operation, and with so many arguments, is not a question of the grammar.
#[derive(Drop)]
pub struct ScriptCall {
    pub line: u32,
    pub name: Name,
    pub args: Numbers,
}

/// The calls of one caller, in order.
pub type Script = Listed<ScriptCall>;

/// The scripts of the callers, by their numbers.
pub type Scripts = Listed<Script>;

/// The turns of a schedule, in order.
pub type Turns = Listed<Turn>;

/// A document: its text; the slots of each kind; the first and the last phase; the steps that an operation may make; the
/// scripts; and the schedule, which is empty if there is none. Settings that a document leaves out are 64 slots of a kind,
/// the phases from 1 to 1,000,000,000, and 1,000,000 steps.
#[derive(Drop)]
pub struct Document {
    pub text: Text,
    pub slots: Numbers,
    pub first: u64,
    pub last: u64,
    pub fuel: u64,
    pub scripts: Scripts,
    pub schedule: Turns,
}
