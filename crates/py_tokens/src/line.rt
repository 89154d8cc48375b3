// Logical lines.
use crate::token::Tokens;

/// A logical line: the line of the file in which its first token begins, from 1; the number of spaces before that token; its tokens.
#[derive(Debug, Drop)]
pub struct LogicalLine {
    pub line: u32,
    pub indent: u32,
    pub tokens: Tokens,
}
