//! What a word of the command line asks for.

ghost use Rattle.std.specs.Prelude.{◌≡◌};
ghost use Rattle.oac_cli.specs.Commands.{request_of};

use line_words::words::name;

/// What the program is asked for.
#[derive(Clone, Copy)]
pub enum Request {
    Help,
    Version,
    /// The header of a document, by the name that the word is.
    Header,
}

/// What a word asks for, if it asks for something.
pub fn request_of(word: &[u8]) -> Option<Request>
    ensures { result ≡ request_of word.now }
{
    if word == b"--help".as_slice() {
        Some(Request::Help)
    } else if word == b"--version".as_slice() {
        Some(Request::Version)
    } else if name(word) {
        Some(Request::Header)
    } else {
        None
    }
}
