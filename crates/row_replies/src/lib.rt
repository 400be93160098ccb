//! How the programs of rows tell the replies of callers.
#![tactic(auto)]

mod told;

pub use told::add_replies;
