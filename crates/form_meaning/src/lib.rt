//! The thin form of a notebook file, and where other bytes fail.
#![tactic(auto)]

pub mod laws;
