//! Bytes to tokens and logical lines.
#![tactic(auto)]

mod brackets;
mod fault;
mod file_text;
mod formats;
mod front;
mod logical_lines;
mod marks;
mod numbers;
mod plain;
mod scan;
mod texts;
mod words;

pub use brackets::{closing_of, is_closing, single};
pub use fault::LexFault;
pub use file_text::{is_clean, is_readable, readable};
pub use formats::format;
pub use front::plain_token;
pub use logical_lines::lines_by;
pub use numbers::number;
pub use plain::{PlainKind, behind_closing, is_f_text_prefix, is_text_prefix, opening};
pub use texts::{Quotes, character, hex_digits, lead};
pub use words::{is_quote, starts_quote, word};
