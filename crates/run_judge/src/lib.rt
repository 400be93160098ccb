//! Certificates of documents: one is made of a replay, and one that others made is judged.
#![tactic(auto)]

mod copying;
mod judging;
pub mod laws;
mod limits;
mod making;
mod short;

pub use certificates::{
    Certificate, Events, ReplyList, ReplyLists, read_certificate, show_certificate,
};
pub use event_judge::Verdict;
pub use judging::judge;
pub use making::make_certificate;
pub use short::falls_short;
