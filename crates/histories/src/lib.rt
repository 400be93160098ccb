//! Histories of callers who share a set and a queue: which calls each caller made, one after another, and what each was answered. A
//! history is legal if its calls can be put in one order, each caller's in its own, in which each answer is that of a set and of a
//! queue. It is searched for by trying all orders, so only short histories are judged.
#![tactic(auto)]

mod call;
mod judgement;
mod limits;
mod orders;
mod shared;

pub use call::{Action, Answer, Call};
pub use judgement::{Judgement, judge};
