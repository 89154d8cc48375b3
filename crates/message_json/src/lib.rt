//! What a visitor sends, read from JSON.
#![tactic(auto)]

mod fault;
mod reading;
#[cfg(test)]
mod tests;

pub use fault::MessageFault;
pub use reading::read_message;
