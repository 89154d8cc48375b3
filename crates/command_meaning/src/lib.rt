//! What the words of the program's command line ask for.
#![tactic(auto)]

pub mod laws;
