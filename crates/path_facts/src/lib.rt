//! Which states a small machine may be in where control arrives at an instruction. The machine has at most four
//! states; what an instruction does to it and where control goes on is all that is known of instructions here.
#![tactic(auto)]

mod facts;
mod moves;
mod nodes;

pub use facts::Facts;
pub use moves::Move;
