//! What a certificate says.

use documents::Document;
use norm_lang::list::Listed;
use source_machine::{SourceEvent, SourceReply};

/// Events, in order.
pub type Events = Listed<SourceEvent>;

/// The replies of a caller, in order.
pub type ReplyList = Listed<SourceReply>;

/// The replies of the callers, by their numbers.
pub type ReplyLists = Listed<ReplyList>;

/// A document, the events of a run of it, and the replies of each caller, with one list for each script.
#[derive(Drop)]
pub struct Certificate {
    pub document: Document,
    pub events: Events,
    pub replies: ReplyLists,
}
