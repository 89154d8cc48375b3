//! What a visitor is sent, as plain types.
#![tactic(auto)]

mod frame;

pub use frame::{CellError, CellFrame, Frame, Output, OutputKind, Status};
