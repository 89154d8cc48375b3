//! What bytes are a message.
#![tactic(auto)]

mod laws;
mod worked;

pub use laws::{
    last_value_counts, messages_are_computed, messages_are_read_one_way, names_in_order,
    whole_numbers,
};
pub use worked::{
    worked_depths, worked_messages, worked_numbers, worked_refusals, worked_texts, worked_values,
};
