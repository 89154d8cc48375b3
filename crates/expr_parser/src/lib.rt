//! Expressions from tokens.
#![tactic(auto)]

mod alone;
mod atoms;
mod bound;
mod brackets;
mod clause;
mod compared;
mod counts;
mod grammar;
mod items;
mod levels;
mod listed;
mod lists;
mod names;
mod part;
mod simple;
mod tails;
mod texts;
mod whole;

pub use whole::expr;
