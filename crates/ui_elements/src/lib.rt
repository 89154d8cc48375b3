//! Elements of `marimo.ui`: what their calls make, and what values they admit.
#![tactic(auto)]

mod admission;
mod args;
mod call_params;
mod construction;
pub mod laws;
mod parameters;
mod params;
mod present;
mod ranges;
mod text;
mod words;

pub use admission::{AdmitFault, admit};
pub use args::{Args, Word, Words};
pub use construction::make;
pub use present::Present;
pub use text::shown;
