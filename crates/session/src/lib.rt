//! One visitor is served over a link.
#![tactic(auto)]

mod answer;
mod ended;
mod heard;
mod hearing;
pub mod laws;
mod sending;
mod serving;
mod unsent;

pub use ended::Ended;
pub use serving::serve_visitor;
