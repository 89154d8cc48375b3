//! What a visitor sends, as plain types.
#![tactic(auto)]

mod message;

pub use message::{Message, SetItem, SetItems};
