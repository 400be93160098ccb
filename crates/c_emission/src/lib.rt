//! The lines of an operation: a block for each instruction of its target, the starts and restarts of its two methods, and where each begins.
#![tactic(auto)]

mod blocks;
mod ends;
mod exchanges;
mod functions;
mod locals;
mod methods;
mod operations;
mod sizes;

pub use functions::operations_of;
pub use operations::operation;
