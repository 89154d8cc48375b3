//! What the lines of a cell do, with no budget and under one.
#![tactic(auto)]

mod binding;
pub mod laws;

pub use binding::Binding;
