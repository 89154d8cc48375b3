//! Expressions and lines of the whole language: what spells them, how deep they are, and which the grammar has.
#![tactic(auto)]

mod laws;

pub use laws::{lines_of_tokens, printed_tokens};
