//! The words of the command line.

ghost use Rattle.std.specs.Prelude.{◌≡◌, map};
ghost use Rattle.std.specs.String.{string_bytes};
ghost use Rattle.oax_cli.specs.Requests.{request_named, request_of};

/// What the words ask for.
#[derive(Clone, Copy)]
pub enum Request {
    /// Whether the run of the certificate that the source has shows that its text isn't proper.
    Proper,
    /// How the program is used.
    Help,
    /// The program's version.
    Version,
}

fn request_named(word: &str) -> Option<Request>
    ensures { result ≡ request_named word.now }
{
    match word {
        "proper" => Some(Request::Proper),
        "--help" => Some(Request::Help),
        "--version" => Some(Request::Version),
        _ => None,
    }
}

/// What the words ask for, if they are in the grammar.
pub fn request_of(words: &[String]) -> Option<Request>
    ensures { result ≡ request_of (map string_bytes words.now) }
{
    match words {
        [word] => request_named(word.as_str()),
        _ => None,
    }
}
