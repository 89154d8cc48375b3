// Tokens.
ghost use Rattle.std.specs.Prelude.{◌≡◌};
ghost use Rattle.py_tokens.specs.TokenView.{view_pieces, view_piece_list, view_tokens, view_token_list, token_list};

use py_tree::{Convert, Row, Spec, Spelling};

/// What a token is.
#[cycle(token)]
#[derive(Debug, Drop)]
pub enum TokenKind {
    /// A name or a keyword.
    Name,
    /// A whole number.
    Number,
    /// A text.
    Text,
    /// A text with fields.
    FText(Pieces),
    /// An operator or a delimiter.
    Mark,
}

/// A token with its spelling (Python language reference, section 2).
#[cycle(token)]
#[derive(Debug, Drop)]
pub struct Token {
    pub kind: TokenKind,
    pub spelling: Spelling,
}

/// Tokens in order.
#[cycle(token)]
#[derive(Debug, Drop)]
pub struct Tokens {
    pub tokens: Row<Token>,
}

/// A piece of an f-text: what its characters mean, or a field.
#[cycle(token)]
#[derive(Debug, Drop)]
pub enum Piece {
    /// Characters.
    Chars(Spelling),
    /// A field: its tokens, and how its value becomes a text.
    Field {
        tokens: Tokens,
        convert: Convert,
        spec: Option<Spec>,
    },
}

/// Pieces in order.
#[cycle(token)]
#[derive(Debug, Drop)]
pub struct Pieces {
    pub pieces: Row<Piece>,
}

impl Tokens {
    /// These tokens.
    pub fn of(wrapped: Vec<Token>) -> Tokens
        ensures view { view_tokens result ≡ view_token_list wrapped.items }
        ensures items { token_list result ≡ wrapped.items }
    {
        Tokens {
            tokens: Row::of(wrapped),
        }
    }

    /// The tokens.
    pub fn items(&self) -> &[Token]
        ensures view { view_tokens self.now ≡ view_token_list result.now }
        ensures items { result.now ≡ token_list self.now }
    {
        self.tokens.items()
    }
}

impl Pieces {
    /// These pieces.
    pub fn of(wrapped: Vec<Piece>) -> Pieces
        ensures { view_pieces result ≡ view_piece_list wrapped.items }
    {
        Pieces {
            pieces: Row::of(wrapped),
        }
    }

    /// The pieces.
    pub fn items(&self) -> &[Piece]
        ensures { view_pieces self.now ≡ view_piece_list result.now }
    {
        self.pieces.items()
    }
}
