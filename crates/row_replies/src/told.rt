//! Replies in a line.

ghost use Rattle.std.specs.Prelude.{◌≡◌, ◌++◌, IfOk};
ghost use Rattle.std.specs.String.{string_bytes};
ghost use Rattle.row_replies.specs.Replies.{reply_word, replies_line};

use norm_lang::SourceReply;
use std::alloc::AllocError;
use std::fmt::Write;

/// A reply, after those that stand in the line.
fn add_reply(out: &mut String, reply: SourceReply) -> Result<(), AllocError>
    ensures { IfOk result (λ _. string_bytes out.new ≡ string_bytes out.old ++ reply_word reply) }
{
    match reply {
        SourceReply::Number(number) => write!(out, " Number({number})"),
        SourceReply::Nothing => out.push_str(" Nothing"),
        SourceReply::Full => out.push_str(" Full"),
        SourceReply::Phases(phase) => write!(out, " Phases({phase})"),
    }
}

/// Adds the line with replies: `replies`, each reply after a space, and a newline.
///
/// # Errors
///
/// `AllocError` if memory runs out.
#[tactic(auto, using(crate::proofs::Replies::replies_more, crate::proofs::Replies::replies_end))]
pub fn add_replies(out: &mut String, replies: &[SourceReply]) -> Result<(), AllocError>
    ensures { IfOk result (λ _. string_bytes out.new ≡ string_bytes out.old ++ replies_line replies.now) }
{
    out.push_str("replies")?;
    for reply in replies {
        add_reply(out, *reply)?;
    }
    out.push('\n')
}
