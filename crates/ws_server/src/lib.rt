//! Workers that serve the visitors of doors side by side.
#![tactic(auto)]

pub mod laws;
mod report;
mod worker;
mod workers;

pub use report::Report;
pub use workers::serve_doors;
