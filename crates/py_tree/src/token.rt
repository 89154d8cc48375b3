// Tokens of literals.
use crate::spellings::Spelling;

/// What a token is.
#[derive(Clone, Copy, Debug, PartialEq, Eq)]
pub enum TokenKind {
    /// A name or a keyword.
    Name,
    /// A whole number.
    Number,
    /// A text.
    Text,
    /// An operator or a delimiter.
    Mark,
}

/// The token of a literal, with its spelling (Python language reference, section 2).
#[derive(Debug, Drop)]
pub struct Token {
    pub kind: TokenKind,
    pub spelling: Spelling,
}
