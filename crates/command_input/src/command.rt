//! The words of the command line.

ghost use Rattle.std.specs.Prelude.{◌≡◌, map, IfSome, Some, None, if◌then◌else◌};
ghost use Rattle.std.specs.String.{string_bytes};
ghost use Rattle.oa_words.specs.Within.{is_count};
ghost use Rattle.command_input.specs.Commands.{command_named, count_in, workload_in, judge_named, judge_in, request_of, IsInRange};

use documents::limits::MOST_CALLS;
use oa_text::read_numeral;
use oa_words::limits::MOST_CALLERS;

/// What is done with a document.
#[derive(Clone, Copy)]
pub enum Command {
    /// The document's calls are made, and their answers written.
    Run,
    /// The same, with the steps of the callers in the order that the document's schedule gives.
    Replay,
    /// The document's calls are made on its text as it is, under epochs, and their answers written.
    Epochs,
    /// The document's text is judged by the rules of the normal form.
    Check,
    /// The document's text is written in its canonical spelling.
    Show,
    /// The whole document is written in its canonical spelling, which is of the second version.
    Upgrade,
    /// The document's text is compiled, and the target written in its canonical spelling.
    Compile,
    /// The document's calls are made as in a replay, and a certificate of that run is written.
    Certify,
}

/// What the words ask for.
#[derive(Clone, Copy)]
pub enum Request {
    /// A command on the document that the source has.
    OfDocument(Command),
    /// The certificate that the source has is judged.
    OfCertificate,
    /// Two large runs, for so many calls and callers. No document is read.
    Workload { count: u32, callers: u32 },
}

fn command_named(word: &str) -> Option<Command>
    ensures { result ≡ command_named word.now }
{
    match word {
        "run" => Some(Command::Run),
        "replay" => Some(Command::Replay),
        "epochs" => Some(Command::Epochs),
        "check" => Some(Command::Check),
        "show" => Some(Command::Show),
        "upgrade" => Some(Command::Upgrade),
        "compile" => Some(Command::Compile),
        _ => None,
    }
}

/// A number as a count, if it is from 1 to `most`.
fn in_range(number: u64, most: u32) -> Option<u32>
    ensures { result ≡ (if is_count most number then Some number else None) }
{
    if 1 <= number && number <= most as u64 {
        Some(number as u32)
    } else {
        None
    }
}

/// The number that a word spells, if it is from 1 to `most`.
#[tactic(auto, using(crate::proofs::Counted::no_numeral, crate::proofs::Counted::too_large, crate::proofs::Counted::counted))]
fn count_in(word: &[u8], most: u32) -> Option<u32>
    ensures { result ≡ count_in most word.now }
{
    match read_numeral(word) {
        None => None,
        Some(None) => None,
        Some(Some(number)) => in_range(number, most),
    }
}

/// The workload that the words after `workload` ask for.
fn workload_in(words: &[String]) -> Option<Request>
    ensures { result ≡ workload_in (map string_bytes words.now) }
{
    match words {
        [count, callers] => {
            let count = count_in(count.as_bytes(), MOST_CALLS)?;
            let callers = count_in(callers.as_bytes(), MOST_CALLERS)?;
            Some(Request::Workload { count, callers })
        }
        _ => None,
    }
}

/// What is done with certificates, by the word after `judge`.
fn judge_named(word: &str) -> Option<Request>
    ensures { result ≡ judge_named word.now }
{
    match word {
        "make" => Some(Request::OfDocument(Command::Certify)),
        "check" => Some(Request::OfCertificate),
        _ => None,
    }
}

/// What the words after `judge` ask for.
fn judge_in(words: &[String]) -> Option<Request>
    ensures { result ≡ judge_in (map string_bytes words.now) }
{
    match words {
        [word] => judge_named(word.as_str()),
        _ => None,
    }
}

/// What the words ask for, if they are in the grammar.
pub fn request_of(words: &[String]) -> Option<Request>
    ensures request { result ≡ request_of (map string_bytes words.now) }
    ensures range { IfSome result IsInRange }
{
    match words {
        [] => None,
        [word] => Some(Request::OfDocument(command_named(word.as_str())?)),
        [word, others @ ..] => {
            if word.as_str() == "workload" {
                workload_in(others)
            } else if word.as_str() == "judge" {
                judge_in(others)
            } else {
                None
            }
        }
    }
}
