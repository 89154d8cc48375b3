//! A reader of expressions and lines, as functions from tokens, its laws, and worked examples. No definition of the language speaks of it.
#![tactic(auto)]

mod laws;
mod worked;

pub use laws::{
    expressions_are_read, lines_are_read, lines_are_spelled_once, spelled_lines_are_lines,
    spelled_once,
};
pub use worked::{worked_expressions, worked_lines};
