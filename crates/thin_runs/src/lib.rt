//! A notebook of the thin form is one that a kernel can run.
#![tactic(auto)]

pub mod laws;
