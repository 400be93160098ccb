//! A small part of C: a function is a list of lines, each with one operation, and a caller runs one line after another.
#![tactic(auto)]

pub mod lines;

pub use lines::{Answer, Line, Operand, Parameter, Place, Test, Value};
