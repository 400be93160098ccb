//! The verifier of compiled code: a target is accepted for a text exactly if erasing gives the text and no instruction
//! has a flaw, and a refusal names the first flaw. It never asks how the target was compiled.
#![tactic(auto)]

mod barred;
mod code;
mod content;
mod erasing;
mod flaw;
mod judge;
pub mod laws;
mod places;
mod same;
mod subject;

pub use barred::{Barred, verify};
pub use flaw::{Flaw, FlawKind, VerifyError};
