//! The bounds that the readers ask of their callers.

ghost use Rattle.std.specs.Prelude.{◌≡◌, ◌+◌, ◌<◌, ◌^◌, length, nat_lt, IsTrue};
ghost use Rattle.oa_text.specs.Lines.{lines_of};

/// Whether bytes are so few that their lines can be counted.
#[tactic(auto, using(crate::proofs::FewLines::few_lines))]
pub fn few(bytes: &[u8]) -> bool
    ensures exact { result ≡ nat_lt (length bytes.now) 4000000 }
    ensures lines { IsTrue result → length (lines_of bytes.now) + 1 < 2 ^ 32 }
{
    bytes.len() < 4_000_000
}
