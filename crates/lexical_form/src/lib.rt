//! Tokens and logical lines: what spells them, and the line at which bytes are refused that spell none.
#![tactic(auto)]

pub mod laws;
