//! Tokens and trees of notebook code and what they spell, names, numbers, and lines of bytes.
//!
//! Boxes and lists in types that lead back to themselves (`Boxed`, and `Items` in `py_value`) come from the kit's `sqlite_items`,
//! which has nothing of a database: its `Boxed` is seen as the value in it and its `Items` as a list, both over the global
//! allocator, as such types need.
#![tactic(auto)]

mod builtins;
mod element;
mod expr;
mod literal;
mod names;
mod numbers;
mod row;
mod spec;
mod spellings;
mod text_lines;
mod token;
mod tree;

pub use builtins::is_builtin;
pub use element::ui_kind;
pub use expr::{Argument, Comparison, Expr, Link, Pair, TextPiece};
pub use literal::literal_int;
pub use names::is_name;
pub use numbers::number;
pub use row::Row;
pub use spec::{Align, Convert, Form, Spec};
pub use spellings::{Spelling, Spellings};
pub use text_lines::{BYTE_LIMIT, whole_line};
pub use token::{Token, TokenKind};
pub use tree::{Augment, Block, CellCode, Line, Stmt};
