//! Certificates: a document, the events of a run of it and the replies of its callers, read and shown.
#![tactic(auto)]

mod account;
mod certificate;
mod cut;
mod events;
pub mod laws;
mod numbers;
mod reader;
mod replies;
mod spelling;

pub use certificate::{Certificate, Events, ReplyList, ReplyLists};
pub use reader::read_certificate;
pub use spelling::show_certificate;
