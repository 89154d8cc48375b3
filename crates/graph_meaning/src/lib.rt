//! The graph of a notebook: its order, its cycles, and what runs again.
#![tactic(auto)]

pub mod laws;
