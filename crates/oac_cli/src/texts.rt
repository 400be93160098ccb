//! What the program says of itself.

/// The program's name, with which its messages begin.
pub const PROGRAM: &[u8] = b"oac";

/// What `--help` asks for.
pub const HELP: &[u8] = b"oac NAME < DOCUMENT > NAME.h

Writes a header of C11 for the text of a document of oa. NAME has 1 to 16 of the characters a to z, 0 to 9 and _, the first a letter:
it begins each name in the header. In this first step the header has a pool of slots, its callers, and a claim of a slot for each kind
of nodes; operations are not emitted yet.

oac --help     writes this
oac --version  writes which oac this is

Status: 0 written, 2 usage, 3 read fault, 4 long input, 5 no document, 6 text refused, 8 write fault, 9 memory.
";

/// What `--version` asks for.
pub const VERSION: &[u8] = b"oac 1 (first step: the pool, its callers and claims of slots)
";

/// The message on words that ask for nothing.
pub const USAGE: &[u8] = b"oac: usage: oac NAME < DOCUMENT > NAME.h
NAME is 1 to 16 of the characters a to z, 0 to 9 and _, the first a letter. oac --help says more.
";
