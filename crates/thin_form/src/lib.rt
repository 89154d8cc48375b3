//! Notebook files in the thin form.
#![tactic(auto)]

mod cells;
pub mod laws;
mod line;
mod reader;
mod slider_names;
mod sliders;
mod sums;
mod thin_file;
mod trees;
mod words;

pub use thin_file::{ThinFault, thin};
