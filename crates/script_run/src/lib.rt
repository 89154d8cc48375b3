//! Scripts of visitors, and their playing.
#![tactic(auto)]

mod frame_line;
mod replay;
mod script;

pub use frame_line::set_line;
pub use replay::{PlayFault, play};
pub use script::{ScriptFault, read_script};
