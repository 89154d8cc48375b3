//! The text of frames, as JSON.
#![tactic(auto)]

mod frame_json;
mod json_text;

pub use frame_json::push_frame;
