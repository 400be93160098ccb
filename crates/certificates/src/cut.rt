//! Where the document of a certificate ends.

ghost use Rattle.std.specs.Prelude.{◌≡◌, ◌≤◌, ◌^◌, option_map, option_copied, false};
ghost use Rattle.oa_text.specs.Shown.{line_shown};
ghost use Rattle.certificates.specs.CertificateRead.{word_of, cut_from, room_of};
ghost use Rattle.certificates.specs.Shown.{cut_shown};

use line_words::words::Words;
use oa_text::{Line, Lines};

/// The count of bytes before the line that begins the events, that line, and those behind it.
#[derive(Drop)]
pub(crate) struct Cut<'a> {
    pub(crate) before: usize,
    pub(crate) line: Line<'a>,
    pub(crate) behind: Lines<'a>,
}

/// The word that a line begins with: no bytes if the line is skipped, `None` if its bytes have a fault.
fn word_of<'a>(line: Line<'a>) -> Option<&'a [u8]>
    ensures { option_copied result ≡ word_of (line_shown line.entry) }
{
    match Words::new(line) {
        Err(_) => None,
        Ok(mut words) => match words.first() {
            None => Some(&[]),
            Some(word) => Some(word),
        },
    }
}

/// Where the events begin: at the first line that begins with `events` behind one that begins with `schedule`. It isn't looked for behind
/// a line whose bytes have a fault.
pub(crate) fn find_events<'a>(lines: Lines<'a>) -> Option<Cut<'a>>
    requires { room_of lines ≤ 2 ^ 63 }
    ensures { option_map cut_shown result ≡ cut_from false 0 lines.entry }
{
    let mut behind = lines;
    let mut before = 0;
    let mut scheduled = false;
    'lines: while let Some(line) = behind.next() {
        let word = word_of(line)?;
        if scheduled && word == b"events".as_slice() {
            return Some(Cut {
                before,
                line,
                behind,
            });
        }
        scheduled = scheduled || word == b"schedule".as_slice();
        before = before + line.bytes().len() + 1;
    }
    None
}
