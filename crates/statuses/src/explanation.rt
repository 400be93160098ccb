//! What the program says on standard error, for a person.

ghost use Rattle.std.specs.Prelude.{◌≡◌};
ghost use Rattle.oa_text.specs.Causes.{HasCause};
ghost use Rattle.oa_text.specs.Written.{Writes};
ghost use Rattle.oa_text.specs.Pieces.{piece_bytes};
ghost use Rattle.statuses.specs.Explanations.{fault_words, rule_words, shape_words, method_words, fault_sentence, refusal_sentence, place_before, place_number, place_after, shape_sentence, rejected_part, rejection_words, rejection_sentence, explanation};

use crate::status::Status;
use norm_check::Refusal;
use oa_text::{Failed, Piece, Sink, write_all, write_pieces};

const SHORT: &[u8] =
    b"oa: at least one call has no answer: full (two sweeps freed no slot for its new node), phases (the last phase is over), spent (it used up its fuel, the steps that one call may make) or unreached (an earlier call of its caller was spent). More slots, phases or fuel may answer it: see 'The answers' in docs/language.md.\n";

const USAGE: &[u8] =
    b"oa: usage: oa COMMAND < DOCUMENT, oa judge check < CERTIFICATE, or oa workload N C\n  run          make the document's calls on threads, and print their answers\n  replay       make them step by step, in the order of the document's schedule\n  epochs       make them on threads as run does, on the text as it is\n  check        say whether its text is in normal form\n  show         print its text in the canonical spelling\n  upgrade      print the whole document in the canonical spelling\n  compile      print its text with checks and guards\n  judge make   replay the calls, and print a certificate of that run\n  judge check  say whether a certificate tells of a run of its document, with its replies\n  workload     make N calls on a hash set (1 to 100000), after up to 2000 by each of C callers (1 to 8)\nSee docs/language.md for documents.\n";

const READ_FAULT: &[u8] =
    b"oa: standard input could not be read to its end, so nothing was judged. Check the file or the pipe, and try again.\n";

const LONG_INPUT: &[u8] =
    b"oa: the input is longer than 1048576 bytes, the most that a document may have, or than 268435456, the most that a certificate may have. Make two documents of it, or a certificate of fewer calls.\n";

const WRITE_FAULT: &[u8] =
    b"oa: standard output could not be written to its end, so what stands there may be cut short. Check the disk or the pipe, and try again.\n";

const MEMORY: &[u8] =
    b"oa: memory ran out before there was an answer. A shorter document or a smaller workload needs less.\n";

/// What is wrong with a line, by the number of its fault.
#[tactic(auto, unfolding(crate::specs::Explanations::fault_words))]
pub fn fault_words(fault: u8) -> &'static [u8]
    ensures { result.now ≡ fault_words fault }
{
    if fault == 1 {
        b"it has a byte other than a tab and those from space to ~"
    } else if fault == 2 {
        b"a number in it is greater than 18446744073709551615"
    } else if fault == 3 {
        b"it has more than 200 bytes"
    } else if fault == 4 {
        b"its words make no line that may stand there, or a further line must follow"
    } else if fault == 5 {
        b"it names a kind, a field, a root, an initial node or an operation that is not declared"
    } else if fault == 6 {
        b"it declares a name that is declared already"
    } else if fault == 7 {
        b"it passes a limit, such as how many lines of its kind there may be"
    } else if fault == 8 {
        b"it names an initial node of another kind than its place refers to"
    } else {
        b"it is not as the language has it"
    }
}

/// A rule of the normal form, by its number.
#[tactic(auto, unfolding(crate::specs::Explanations::rule_words))]
pub fn rule_words(rule: u8) -> &'static [u8]
    ensures { result.now ≡ rule_words rule }
{
    if rule == 1 {
        b"each register has the kind that its place needs"
    } else if rule == 2 {
        b"references are not computed with"
    } else if rule == 3 {
        b"each new is made once"
    } else if rule == 4 {
        b"a put writes into a fresh node"
    } else if rule == 5 {
        b"an auxiliary exchange shows no fresh node"
    } else if rule == 6 {
        b"a fresh node has one register and one way out"
    } else if rule == 7 {
        b"each cycle looks at shared memory"
    } else if rule == 8 {
        b"each method ends as it must"
    } else if rule == 9 {
        b"a wrap-up leaves kept registers as they are"
    } else if rule == 10 {
        b"no way leads on from a kept register"
    } else if rule == 11 {
        b"a wrap-up exchanges no kept register"
    } else if rule == 12 {
        b"an exchange retires what it cut off"
    } else if rule == 13 {
        b"jumps and picks stay inside"
    } else if rule == 14 {
        b"a register is set before it is read"
    } else if rule == 15 {
        b"each reference is to a node of the kind that its place needs"
    } else {
        b"it is not in normal form"
    }
}

/// What is wrong with a document's shape, by its number.
#[tactic(auto, unfolding(crate::specs::Explanations::shape_words))]
pub fn shape_words(number: u8) -> &'static [u8]
    ensures { result.now ≡ shape_words number }
{
    if number == 1 {
        b"it needs 1 to 8 scripts"
    } else if number == 2 {
        b"the slots of each kind of its nodes, and of all kinds together, are not 1 to 4096"
    } else if number == 3 {
        b"its nodes do not have 1 to 4 fields"
    } else if number == 4 {
        b"it does not have 1 to 256 roots"
    } else if number == 5 {
        b"it has more initial nodes of a kind than slots for them"
    } else if number == 6 {
        b"its phases are not 1 to 1125899906842624, with the first no later than the last"
    } else if number == 7 {
        b"its fuel is not 1 to 1000000000"
    } else if number == 8 {
        b"its text has no operation of that name"
    } else if number == 9 {
        b"the operation has another number of arguments"
    } else if number == 10 {
        b"a turn of the schedule needs a step of a caller that has none to make"
    } else if number == 11 {
        b"a replay has no more steps than these"
    } else {
        b"its shape is not as the language has it"
    }
}

/// A method of an operation, as it stands after the number of its instruction.
pub fn method_words(wrapup: bool) -> &'static [u8]
    ensures { result.now ≡ method_words wrapup }
{
    if wrapup {
        b" of the wrap-up"
    } else {
        b" of the generator"
    }
}

fn explain_fault<K: Sink>(errors: &mut K, line: u32, fault: u8) -> Result<(), Failed>
    ensures bytes { Writes (K.written errors.old) (K.written errors.new) (fault_sentence line fault) result }
    ensures cause { HasCause (K.faults errors.old) (K.faults errors.new) result }
{
    write_pieces(
        errors,
        &[
            Piece::Bytes(b"oa: line "),
            Piece::Number(line as u64),
            Piece::Bytes(b" is at fault: "),
            Piece::Bytes(fault_words(fault)),
            Piece::Bytes(b". See 'Faults' in docs/language.md.\n"),
        ],
    )
}

fn explain_refusal<K: Sink>(errors: &mut K, refusal: Refusal) -> Result<(), Failed>
    ensures bytes { Writes (K.written errors.old) (K.written errors.new) (refusal_sentence refusal) result }
    ensures cause { HasCause (K.faults errors.old) (K.faults errors.new) result }
{
    write_pieces(
        errors,
        &[
            Piece::Bytes(b"oa: rule N"),
            Piece::Number(refusal.rule as u64),
            Piece::Bytes(b" is broken at instruction "),
            Piece::Number(refusal.at as u64),
            Piece::Bytes(method_words(refusal.wrapup)),
            Piece::Bytes(b" of operation "),
            Piece::Number(refusal.op as u64),
            Piece::Bytes(b" (both counted from 0): "),
            Piece::Bytes(rule_words(refusal.rule)),
            Piece::Bytes(b". See 'N"),
            Piece::Number(refusal.rule as u64),
            Piece::Bytes(b"' in docs/language.md for how to mend it.\n"),
        ],
    )
}

/// How the place of a fault of shape is told, up to its number.
#[tactic(auto, unfolding(crate::specs::Explanations::place_before))]
fn place_before(number: u8) -> &'static [u8]
    ensures { result.now ≡ place_before number }
{
    if number < 8 {
        b"oa: the document cannot be run: "
    } else if number < 10 {
        b"oa: line "
    } else {
        b"oa: the replay stopped after "
    }
}

/// The number of the place; the document as a whole has none.
#[tactic(auto, unfolding(crate::specs::Explanations::place_number))]
fn place_number(number: u8, at: u64) -> Piece<'static>
    ensures { piece_bytes result ≡ place_number number at }
{
    if number < 8 {
        Piece::Bytes(b"")
    } else {
        Piece::Number(at)
    }
}

/// What is told after the number.
#[tactic(auto, unfolding(crate::specs::Explanations::place_after))]
fn place_after(number: u8) -> &'static [u8]
    ensures { result.now ≡ place_after number }
{
    if number < 8 {
        b""
    } else if number < 10 {
        b": "
    } else {
        b" steps: "
    }
}

fn explain_shape<K: Sink>(errors: &mut K, number: u8, at: u64) -> Result<(), Failed>
    ensures bytes { Writes (K.written errors.old) (K.written errors.new) (shape_sentence number at) result }
    ensures cause { HasCause (K.faults errors.old) (K.faults errors.new) result }
{
    write_pieces(
        errors,
        &[
            Piece::Bytes(place_before(number)),
            place_number(number, at),
            Piece::Bytes(place_after(number)),
            Piece::Bytes(shape_words(number)),
            Piece::Bytes(b". See 'What can be run' in docs/language.md.\n"),
        ],
    )
}

/// What of a certificate is wrong, by the number of what is found.
#[tactic(auto, unfolding(crate::specs::Explanations::rejected_part))]
fn rejected_part(number: u8) -> &'static [u8]
    ensures { result.now ≡ rejected_part number }
{
    if number == 3 {
        b"the replies of caller "
    } else {
        b"event "
    }
}

/// What is wrong with it, and what to look at.
#[tactic(auto, unfolding(crate::specs::Explanations::rejection_words))]
fn rejection_words(number: u8) -> &'static [u8]
    ensures { result.now ≡ rejection_words number }
{
    if number == 1 {
        b" (counted from 0) is not enabled: after the events before it no run of the text makes that step. Compare it with the earlier events of its caller"
    } else if number == 2 {
        b" (counted from 0) begins another call than the next one of its caller's script. Compare its operation and its numbers with that script"
    } else if number == 3 {
        b" do not agree with its events: each call that it began has the reply that the events give it, in order, and only that of the last may be left out. Compare its reply lines with its events"
    } else {
        b" is not as the language has it"
    }
}

fn explain_rejection<K: Sink>(errors: &mut K, number: u8, at: u64) -> Result<(), Failed>
    ensures bytes { Writes (K.written errors.old) (K.written errors.new) (rejection_sentence number at) result }
    ensures cause { HasCause (K.faults errors.old) (K.faults errors.new) result }
{
    write_pieces(
        errors,
        &[
            Piece::Bytes(b"oa: the certificate is rejected: "),
            Piece::Bytes(rejected_part(number)),
            Piece::Number(at),
            Piece::Bytes(rejection_words(number)),
            Piece::Bytes(b". See 'Certificates' in docs/language.md.\n"),
        ],
    )
}

/// Writes the sentence on a status: what it means, and where to read on. If all went well, there is none.
///
/// # Errors
///
/// `Failed` if a write fails: a prefix of the sentence was written then.
pub fn explain<K: Sink>(errors: &mut K, status: Status) -> Result<(), Failed>
    ensures bytes { Writes (K.written errors.old) (K.written errors.new) (explanation status) result }
    ensures cause { HasCause (K.faults errors.old) (K.faults errors.new) result }
{
    match status {
        Status::Done => Ok(()),
        Status::Partial => write_all(errors, SHORT),
        Status::Usage => write_all(errors, USAGE),
        Status::ReadFault => write_all(errors, READ_FAULT),
        Status::LongInput => write_all(errors, LONG_INPUT),
        Status::BadDocument { line, fault } => explain_fault(errors, line, fault),
        Status::Refused { refusal } => explain_refusal(errors, refusal),
        Status::BadShape { number, at } => explain_shape(errors, number, at),
        Status::WriteFault => write_all(errors, WRITE_FAULT),
        Status::Memory => write_all(errors, MEMORY),
        Status::Rejected { number, at } => explain_rejection(errors, number, at),
    }
}
