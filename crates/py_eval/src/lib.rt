//! The evaluator: runs of blocks under a budget of steps.
#![tactic(auto)]

mod elements;
mod eval;
mod lines;
mod meter;
mod run;
mod scene;
mod steps;

pub use run::{End, Ran, run_block};
pub use scene::{Env, Scene};
pub use steps::Steps;
pub use ui_elements::Present;
