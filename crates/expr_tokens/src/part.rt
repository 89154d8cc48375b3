// What a form puts among tokens.
use py_tree::{Expr, Spelling, TextPiece, Token};

/// A part of an expression: a token, or an expression inside it.
#[derive(Clone, Copy, Debug)]
pub enum Part<'a> {
    /// A keyword.
    Word(&'static str),
    /// An operator or a delimiter.
    Mark(&'static str),
    /// A name.
    Name(&'a Spelling),
    /// The token of a literal.
    Literal(&'a Token),
    /// An f-text: its spelling, and what stands between its quotes.
    FText(&'a Spelling, &'a [TextPiece]),
    /// An expression.
    Inner(&'a Expr),
}
