//! Bytes to the logical lines of the whole language: f-texts, tokens of every kind, lines.
#![tactic(auto)]

mod f_texts;
mod field_ends;
mod fields;
mod file_lines;
mod pieces;
mod plain_tokens;
mod runs;
mod said;
#[cfg(test)]
mod tests;
mod texts_said;
mod tokens;

pub use file_lines::lines;
pub use texts_said::literal_text;
pub use tokens::token;
