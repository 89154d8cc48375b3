//! Scripts, acceptance and refusals, what the program writes; worked notebooks.
#![tactic(auto)]

pub mod laws;
