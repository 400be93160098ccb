//! The one limit in which targets differ from texts.

/// Instructions of a method, the checks and guards among them.
pub const MOST_TARGET_INSTRS: usize = 4096;
