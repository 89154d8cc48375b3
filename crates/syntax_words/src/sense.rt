// What a token is to the grammar.
use crate::fixed::Fixed;
use py_tokens::{Pieces, Token};
use py_tree::{Spelling, TokenKind};

/// What a token is to the grammar.
#[derive(Clone, Copy, Debug)]
pub enum Sense<'a> {
    /// A keyword or a mark that has a place in a form.
    Fixed(Fixed),
    /// A name that is no keyword.
    Name(&'a Spelling),
    /// `None`, `True`, `False`, a number or a text.
    Literal(TokenKind, &'a Spelling),
    /// A text with fields.
    FText(&'a Spelling, &'a Pieces),
    /// Anything else.
    Other(&'a Token),
}
