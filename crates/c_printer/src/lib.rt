//! The printed C: lines as tokens with a space before each, functions, and the header around them.
#![tactic(auto)]

mod filling;
pub mod functions;
pub mod header;
pub mod laws;
pub mod lines;
pub mod locals;
pub mod operations;
mod starts;
mod templates;
pub mod tokens;
