//! The limits that a line may pass, and what each says.

ghost use Rattle.std.specs.Prelude.{◌≡◌};
ghost use Rattle.message_words.specs.Limits.{limit_words};

/// A limit that a line may pass.
#[derive(Clone, Copy)]
pub enum Limit {
    Kinds,
    Fields,
    Nodes,
    Roots,
    Operations,
    Arguments,
    Buckets,
    Instructions,
    /// That of `new`, or that of instructions.
    News,
    Targets,
    Picked,
    Entries,
    Scripts,
    Calls,
    Turns,
    Callers,
    Counts,
}

/// What a limit says.
#[tactic(auto, unfolding(crate::specs::Limits::limit_words))]
pub fn limit_words(limit: Limit) -> &'static [u8]
    ensures { result.now ≡ limit_words limit }
{
    match limit {
        Limit::Kinds => b"a text has at most 4 kinds",
        Limit::Fields => b"a kind has at most 4 fields",
        Limit::Nodes => b"a text has at most 256 initial nodes, of all kinds together",
        Limit::Roots => b"a text has at most 256 roots",
        Limit::Operations => b"a text has at most 16 operations",
        Limit::Arguments => b"an operation has at most 4 arguments",
        Limit::Buckets => b"a set has 1 to 64 buckets",
        Limit::Instructions => b"a method has at most 256 instructions",
        Limit::News => b"an operation has at most 4 'new', and a method at most 256 instructions",
        Limit::Targets => b"the number of an instruction to go to is at most 65535",
        Limit::Picked => b"a pick chooses among at most 256 roots",
        Limit::Entries => b"a commit has at most 4 exchanges",
        Limit::Scripts => b"a document has at most 256 scripts",
        Limit::Calls => b"a script has at most 100000 calls",
        Limit::Turns => b"a schedule has at most 100000 turns",
        Limit::Callers => b"the number of a caller is at most 4294967295",
        Limit::Counts => b"the count of a turn is at most 1000000",
    }
}
