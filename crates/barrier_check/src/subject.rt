//! What is judged at a time.

use norm_lang::text::{Op, Text};
use target_code::target::{Target, TargetOp};

/// An operation of a target and of a text, by their number.
#[derive(Drop)]
pub(crate) struct Subject<'a> {
    pub(crate) target: &'a Target,
    pub(crate) text: &'a Text,
    pub(crate) number: u8,
    pub(crate) op: &'a TargetOp,
    pub(crate) source: &'a Op,
}
