//! What another program than `oa` says on standard error: the message on a status, in that program's name.
#![tactic(auto)]

mod renamed;

pub use renamed::explain_renamed;
