//! Complete runs of scripts under epochs: each is one of the text on memory that is never recycled.
#![tactic(auto)]

pub mod laws;
