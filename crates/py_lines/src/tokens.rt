// Tokens of every kind.
ghost use Rattle.std.specs.Prelude.{◌≡◌, IfOk, IfSome, MatchOption};
ghost use Rattle.std.specs.Str.{IsUtf8};
ghost use Rattle.lexical_form.specs.Longest.{Longest, NoToken};
ghost use Rattle.lexical_form.specs.PlainReader.{next_plain};
ghost use Rattle.lexical_form.specs.TokenReader.{next, some_plain};
ghost use Rattle.lexical_form.specs.Tokens as pure;
ghost use Rattle.py_lexer.specs.ScanView.{seen};
ghost use Rattle.py_tokens.specs.TokenView.{view_kind, view_piece_list, view_pieces, view_token};

use crate::f_texts::{f_text, opened};
use crate::plain_tokens::{owned, plain_at};
use py_tokens::{Names, Piece, Pieces, Token, TokenKind};
use py_tree::Spelling;
use std::alloc::{AllocError, Global};

/// The longest token at the front, and what is behind it; none where no token begins there (Python language reference, section 2.2).
pub fn token<'a>(
    alloc: Global,
    names: &mut Names,
    text: &'a str,
) -> Result<Option<(Token, &'a str)>, AllocError>
    ensures longest { IfOk result (λ o. MatchOption (seen o) (NoToken text.now) (λ p. Longest text.now p.0 p.1)) }
    ensures text { IfOk result (λ o. IfSome o (λ p. IsUtf8 p.1.now)) }
{
    read(alloc, names, text)
}

fn read<'a>(
    alloc: Global,
    names: &mut Names,
    text: &'a str,
) -> Result<Option<(Token, &'a str)>, AllocError>
    ensures reads { IfOk result (λ o. seen o ≡ next text.now) }
    ensures text { IfOk result (λ o. IfSome o (λ p. IsUtf8 p.1.now)) }
{
    let Some((q, inside)) = opened(text.as_bytes()) else {
        return plain(alloc, names, text);
    };
    let Some((pieces, len)) = f_text(alloc, names, q, text, inside)? else {
        return Ok(None);
    };
    let (spelling, behind) = text.split_at(len);
    let token = owned_f_text(alloc, pieces, spelling)?;
    Ok(Some((token, behind)))
}

// The token at the front that holds no other tokens.
fn plain<'a>(
    alloc: Global,
    names: &mut Names,
    text: &'a str,
) -> Result<Option<(Token, &'a str)>, AllocError>
    ensures reads { IfOk result (λ o. seen o ≡ some_plain (next_plain text.now)) }
    ensures text { IfOk result (λ o. IfSome o (λ p. IsUtf8 p.1.now)) }
{
    let Some((kind, spelling, behind)) = plain_at(text) else {
        return Ok(None);
    };
    let token = owned(alloc, names, kind, spelling)?;
    Ok(Some((token, behind)))
}

fn f_kind(pieces: Pieces) -> TokenKind
    ensures { view_kind result ≡ pure.f_text (view_pieces pieces) }
{
    TokenKind::FText(pieces)
}

// An f-text with its spelling copied.
fn owned_f_text(alloc: Global, pieces: Vec<Piece>, spelling: &str) -> Result<Token, AllocError>
    ensures { IfOk result (λ t. view_token t ≡ pure.token (pure.f_text (view_piece_list pieces.items)) spelling.now) }
{
    let copy = Spelling::of(String::from_str(alloc, spelling)?);
    Ok(Token {
        kind: f_kind(Pieces::of(pieces)),
        spelling: copy,
    })
}
