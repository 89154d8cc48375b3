// Tokens that hold no other tokens.
ghost use Rattle.std.specs.Prelude.{◌≡◌, IfOk, IfSome, string_bytes};
ghost use Rattle.std.specs.Str.{IsUtf8};
ghost use Rattle.lexical_form.specs.FTexts.{kind_of, token_of};
ghost use Rattle.lexical_form.specs.PlainReader.{next_plain};
ghost use Rattle.py_tokens.specs.TokenView.{view_kind, view_token};
ghost use Rattle.py_lexer.specs.Views.{plain_kind};
ghost use Rattle.py_lines.specs.PlainView.{plain_of, seen_plain};

use py_lexer::{PlainKind, number, plain_token};
use py_tokens::{Names, Token, TokenKind};
use py_tree::Spelling;
use std::alloc::{AllocError, Global};

/// What the token at the front is, its spelling, and what is behind it.
pub fn plain_at(text: &str) -> Option<(PlainKind, &str, &str)>
    ensures reads { seen_plain result ≡ next_plain text.now }
    ensures text { IfSome result (λ p. IsUtf8 p.2.now) }
{
    plain_token(text)
}

fn token_kind(kind: PlainKind) -> TokenKind
    ensures { view_kind result ≡ kind_of (plain_kind kind) }
{
    match kind {
        PlainKind::Name => TokenKind::Name,
        PlainKind::Number => TokenKind::Number,
        PlainKind::Text => TokenKind::Text,
        PlainKind::Mark => TokenKind::Mark,
    }
}

// The spelling of a number, with the number.
fn spelled_number(text: String) -> Spelling
    ensures { result ≡ string_bytes text }
{
    match number(text.as_str()) {
        Some(spelled) => Spelling::of_number(text, spelled),
        None => Spelling::of(text),
    }
}

// The spelling copied: of a name with its place, of a number with the number.
fn copied(
    alloc: Global,
    names: &mut Names,
    kind: PlainKind,
    spelling: &str,
) -> Result<Spelling, AllocError>
    ensures { IfOk result (λ s. s ≡ spelling.now) }
{
    match kind {
        PlainKind::Name => names.spelling(alloc, spelling),
        PlainKind::Number => Ok(spelled_number(String::from_str(alloc, spelling)?)),
        _ => Ok(Spelling::of(String::from_str(alloc, spelling)?)),
    }
}

/// The token with its spelling copied.
pub fn owned(
    alloc: Global,
    names: &mut Names,
    kind: PlainKind,
    spelling: &str,
) -> Result<Token, AllocError>
    ensures view { IfOk result (λ t. view_token t ≡ token_of (plain_of kind spelling.now)) }
    ensures spelling { IfOk result (λ t. t.spelling ≡ spelling.now) }
{
    let copy = copied(alloc, names, kind, spelling)?;
    Ok(Token {
        kind: token_kind(kind),
        spelling: copy,
    })
}
