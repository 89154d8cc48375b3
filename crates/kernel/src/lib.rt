//! The session of one visitor of a notebook.
#![tactic(auto)]

mod answers;
mod cell_frame;
mod kernel;
pub mod laws;
mod pending;
mod state;

pub use answers::{Delivered, Stepped};
pub use kernel::Kernel;
