//! Whether some call of a certificate has no reply, or ended without one of its text.

ghost use Rattle.std.specs.Prelude.{◌≡◌, slice_get};
ghost use Rattle.event_judge.specs.Calls.{listed};
ghost use Rattle.run_judge.specs.Short.{is_returned, is_returned_at, is_short_from, are_short_from, falls_short};

use certificates::{Certificate, ReplyList};
use documents::{Script, ScriptCall};
use source_machine::SourceReply;

/// Whether a call returned, with a number or without.
fn is_returned(reply: SourceReply) -> bool
    ensures { result ≡ is_returned reply }
{
    match reply {
        SourceReply::Number(_) => true,
        SourceReply::Nothing => true,
        SourceReply::Full => false,
        SourceReply::Phases(_) => false,
    }
}

/// Whether there is a reply at a place, with which the call returned.
fn is_returned_at(replies: &[SourceReply], index: usize) -> bool
    ensures { result ≡ is_returned_at (slice_get replies.now index) }
{
    match replies.get(index) {
        None => false,
        Some(reply) => is_returned(*reply),
    }
}

/// Whether some call of a script didn't return.
fn is_short_script(script: &[ScriptCall], replies: &[SourceReply]) -> bool
    ensures { result ≡ is_short_from 0 script.now replies.now }
{
    for (index, _) in script.iter().enumerate() {
        if !is_returned_at(replies, index) {
            return true;
        }
    }
    false
}

/// The replies of a caller, none if there is no list.
fn replies_at(lists: &[ReplyList], caller: usize) -> &[SourceReply]
    ensures { result.now ≡ listed (slice_get lists.now caller) }
{
    match lists.get(caller) {
        None => &[],
        Some(list) => list.items(),
    }
}

fn are_short(scripts: &[Script], lists: &[ReplyList]) -> bool
    ensures { result ≡ are_short_from 0 scripts.now lists.now }
{
    for (caller, script) in scripts.iter().enumerate() {
        if is_short_script(script.items(), replies_at(lists, caller)) {
            return true;
        }
    }
    false
}

/// Whether some call of the scripts didn't return: it has no reply, or the reply `full` or `phases`.
pub fn falls_short(certificate: &Certificate) -> bool
    ensures { result ≡ falls_short certificate.now }
{
    are_short(
        certificate.document.scripts.items(),
        certificate.replies.items(),
    )
}
