//! The words of the program's command line.
#![tactic(auto)]

mod command;
mod positional;
mod service;

pub use command::{Command, read_command};
pub use service::{Service, read_service};
