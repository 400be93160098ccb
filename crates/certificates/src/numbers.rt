//! The numbers behind an operation's name.

ghost use Rattle.std.specs.Prelude.{◌≡◌};
ghost use Rattle.line_words.specs.Answered.{Reads};
ghost use Rattle.certificates.specs.EventLines.{no_numbers, counted, with_number, numbers_from};

use line_words::fault::Fault;
use line_words::number::number_in;
use line_words::words::Words;

/// Numbers as they are spelled: how many, where 5 stands for all counts above 4; whether one exceeds 2^64 - 1; and the first four,
/// with 0 for each that is missing.
#[derive(Clone, Copy)]
pub(crate) struct Numbers {
    pub(crate) count: usize,
    pub(crate) great: bool,
    pub(crate) words: [u64; 4],
}

fn counted(count: usize) -> usize
    ensures { result ≡ counted count }
{
    if count < 5 { count + 1 } else { count }
}

fn with_number(numbers: Numbers, number: Option<u64>) -> Numbers
    ensures { result ≡ with_number numbers number }
{
    let mut words = numbers.words;
    let great = match number {
        None => true,
        Some(value) => {
            if numbers.count < 4 {
                words[numbers.count] = value;
            }
            numbers.great
        }
    };
    Numbers {
        count: counted(numbers.count),
        great,
        words,
    }
}

/// The numbers that the words up to the end of the line spell.
pub(crate) fn numbers_behind(words: &mut Words) -> Result<Numbers, Fault>
    ensures { Reads (λ numbers. numbers) result (numbers_from no_numbers words.old) }
{
    let mut numbers = Numbers {
        count: 0,
        great: false,
        words: [0, 0, 0, 0],
    };
    'words: while let Some(word) = words.next_word() {
        numbers = with_number(numbers, number_in(word)?);
    }
    Ok(numbers)
}
