// Tokens cut off a text.
ghost use Rattle.std.specs.Prelude.{◌≡◌, IfSome, MatchOption};
ghost use Rattle.std.specs.Str.{IsUtf8};
ghost use Rattle.lexical_form.specs.Plain.{LongestPlain, NoPlain};
ghost use Rattle.lexical_form.specs.PlainReader.{next_plain};
ghost use Rattle.py_lexer.specs.Views.{plain_kind};
ghost use Rattle.py_lexer.specs.Cutting.{PlainCut};

use crate::plain::{PlainKind, plain};

/// What the longest token at the front is that holds no other tokens, its spelling, and what is behind it; none where no such token begins
/// there (Python language reference, section 2.2).
pub fn plain_token(text: &str) -> Option<(PlainKind, &str, &str)>
    ensures longest { MatchOption result (NoPlain text.now)
        (λ p. LongestPlain text.now (record { kind = plain_kind p.0; spelling = p.1.now }) p.2.now) }
    ensures text { IfSome result (λ p. IsUtf8 p.2.now) }
{
    let Some((kind, len)) = measured(text) else {
        return None;
    };
    let (front, behind) = text.split_at(len);
    Some((kind, front, behind))
}

// What the token at the front is, and how many bytes it has.
fn measured(text: &str) -> Option<(PlainKind, usize)>
    ensures { MatchOption result (next_plain text.now ≡ None) (λ p. PlainCut text.now p.1 (plain_kind p.0)) }
{
    let bytes = text.as_bytes();
    let Some((kind, behind)) = plain(bytes) else {
        return None;
    };
    Some((kind, bytes.len().saturating_sub(behind.len())))
}
