//! Tokens and logical lines of the whole language as types, and the table of a file's names.
#![tactic(auto)]

mod line;
mod names;
mod token;

pub use line::LogicalLine;
pub use names::Names;
pub use py_tree::{Align, Convert, Form, Spec};
pub use token::{Piece, Pieces, Token, TokenKind, Tokens};
