//! The words that all callers share: where each stands, what it says, and what it says at the start.
#![tactic(auto)]

pub mod laws;
pub mod limits;
pub mod packed;
pub mod shape;

pub use packed::{
    Kind, head_parts, head_word, is_marked, ref_word, slot_part, status_parts, status_word,
};
pub use shape::{Shape, ShapeFault};
