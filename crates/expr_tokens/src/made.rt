// Tokens made of what a tree holds.
ghost use Rattle.std.specs.Prelude.{◌≡◌, IfOk};
ghost use Rattle.lexical_form.specs.Tokens as pure;
ghost use Rattle.py_tokens.specs.TokenView.{view_kind, view_piece_list, view_pieces, view_token};
ghost use Rattle.syntax_form.specs.Printing.{kind_of, literal_token};

use py_tokens::{Piece, Pieces, Token, TokenKind};
use py_tree::{Spelling, Token as LiteralToken, TokenKind as LiteralKind};
use std::alloc::{AllocError, Global};

/// A copy of a spelling, with what is kept beside it.
pub fn copied(alloc: Global, spelling: &Spelling) -> Result<Spelling, AllocError>
    ensures { IfOk result (λ s. s ≡ spelling.now) }
{
    let text = String::from_str(alloc, spelling.items())?;
    match spelling.number() {
        Some(number) => Ok(Spelling::of_number(text, number)),
        None => Ok(Spelling::of_name(text, spelling.place())),
    }
}

/// The keyword with this text.
pub fn word(alloc: Global, text: &str) -> Result<Token, AllocError>
    ensures { IfOk result (λ t. view_token t ≡ pure.token pure.name text.now) }
{
    Ok(Token {
        kind: TokenKind::Name,
        spelling: Spelling::of(String::from_str(alloc, text)?),
    })
}

/// The operator or delimiter with this text.
pub fn mark(alloc: Global, text: &str) -> Result<Token, AllocError>
    ensures { IfOk result (λ t. view_token t ≡ pure.token pure.mark text.now) }
{
    Ok(Token {
        kind: TokenKind::Mark,
        spelling: Spelling::of(String::from_str(alloc, text)?),
    })
}

/// The name with this spelling.
pub fn name(alloc: Global, spelling: &Spelling) -> Result<Token, AllocError>
    ensures { IfOk result (λ t. view_token t ≡ pure.token pure.name spelling.now) }
{
    Ok(Token {
        kind: TokenKind::Name,
        spelling: copied(alloc, spelling)?,
    })
}

fn literal_kind(kind: LiteralKind) -> TokenKind
    ensures { view_kind result ≡ kind_of kind }
{
    match kind {
        LiteralKind::Name => TokenKind::Name,
        LiteralKind::Number => TokenKind::Number,
        LiteralKind::Text => TokenKind::Text,
        LiteralKind::Mark => TokenKind::Mark,
    }
}

/// The token of a literal.
pub fn literal(alloc: Global, token: &LiteralToken) -> Result<Token, AllocError>
    ensures { IfOk result (λ t. view_token t ≡ literal_token token.now) }
{
    Ok(Token {
        kind: literal_kind(token.kind),
        spelling: copied(alloc, &token.spelling)?,
    })
}

fn f_kind(pieces: Pieces) -> TokenKind
    ensures { view_kind result ≡ pure.f_text (view_pieces pieces) }
{
    TokenKind::FText(pieces)
}

/// The f-text with this spelling and these pieces.
pub fn f_text(alloc: Global, spelling: &Spelling, pieces: Vec<Piece>) -> Result<Token, AllocError>
    ensures { IfOk result (λ t. view_token t ≡ pure.token (pure.f_text (view_piece_list pieces.items)) spelling.now) }
{
    let copy = copied(alloc, spelling)?;
    Ok(Token {
        kind: f_kind(Pieces::of(pieces)),
        spelling: copy,
    })
}
