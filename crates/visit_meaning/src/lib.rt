//! What a visitor is answered, and why what is kept is what is computed afresh: only cells that a change reaches run again (law
//! `rerun_suffices`).
#![tactic(auto)]

pub mod laws;
