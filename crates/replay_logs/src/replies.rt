//! The replies of callers.

ghost use Rattle.std.specs.Prelude.{◌≡◌, true, map, IfOk};
ghost use Rattle.std.specs.List.{list_all};
ghost use Rattle.oa_simulation.specs.sim_relation.Callers.{replies_of};
ghost use Rattle.replay_logs.specs.UnderWay.{entry_replies};
ghost use Rattle.norm_lang.specs.Limits.{is_reply};

use core_entries::Entry;
use norm_lang::list::Listed;
use source_machine::SourceReply;
use std::alloc::{AllocError, Global};

/// The same reply, whose number is one of its type.
fn numbered(reply: SourceReply) -> SourceReply
    ensures same { result ≡ reply }
    ensures sized { is_reply result ≡ true }
{
    reply
}

/// Replies in order.
fn copied(alloc: Global, replies: &[SourceReply]) -> Result<Listed<SourceReply>, AllocError>
    ensures same { IfOk result (λ list. list ≡ replies.now) }
    ensures sized { IfOk result (λ list. list_all is_reply list ≡ true) }
{
    let mut list = Listed::empty(alloc);
    for reply in replies {
        list.push(numbered(*reply))?;
    }
    Ok(list)
}

/// The replies of an entry.
fn replies_of(alloc: Global, entry: &Entry) -> Result<Listed<SourceReply>, AllocError>
    ensures same { IfOk result (λ list. list ≡ replies_of entry.now.core) }
    ensures sized { IfOk result (λ list. list_all is_reply list ≡ true) }
{
    copied(alloc, entry.replies())
}

/// The replies of each entry.
pub(crate) fn all_replies(
    alloc: Global,
    entries: &[Entry],
) -> Result<Listed<Listed<SourceReply>>, AllocError>
    ensures same { IfOk result (λ lists. lists ≡ map entry_replies entries.now) }
    ensures sized { IfOk result (λ lists. list_all (list_all is_reply) lists ≡ true) }
{
    let mut lists = Listed::empty(alloc);
    for entry in entries {
        lists.push(replies_of(alloc, entry)?)?;
    }
    Ok(lists)
}
