//! The text of frames.
#![tactic(auto)]
