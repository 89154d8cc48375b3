// The words that tokens are.
ghost use Rattle.std.specs.Prelude.{◌≡◌, map, IfOk};
ghost use Rattle.lexical_form.specs.Tokens as pure;
ghost use Rattle.py_tokens.specs.TokenView.{view_token, view_kind};
ghost use Rattle.py_tree.specs.Names as names;
ghost use Rattle.syntax_form.specs.Literals.{constants};
ghost use Rattle.syntax_reading.specs.Words as reading;
ghost use Rattle.syntax_words.specs.SenseView.{view_sense};
ghost use Rattle.syntax_words.specs.WordView.{view_word, view_words};

use crate::sense::Sense;
use crate::spelled::{fixed_keyword, fixed_mark};
use crate::word::Word;
use py_tokens::{Token, TokenKind};
use std::alloc::{AllocError, Global};

const KEYWORDS: [&str; 21] = [
    "False", "None", "True", "and", "as", "break", "continue", "def", "elif", "else", "for", "if",
    "import", "in", "is", "not", "or", "pass", "return", "while", "with",
];

const UNUSED_KEYWORDS: [&str; 14] = [
    "assert", "async", "await", "class", "del", "except", "finally", "from", "global", "lambda",
    "nonlocal", "raise", "try", "yield",
];

const CONSTANTS: [&str; 3] = ["None", "True", "False"];

fn is_free(spelling: &str) -> bool
    ensures { result ≡ reading.is_free spelling.now }
{
    !KEYWORDS.contains(&spelling) && !UNUSED_KEYWORDS.contains(&spelling)
}

fn is_constant(spelling: &str) -> bool
    ensures { result ≡ names.is_among spelling.now constants }
{
    CONSTANTS.contains(&spelling)
}

// What a token that is spelled as a name is to the grammar.
fn sense_of_name(token: &Token) -> Sense<'_>
    requires { view_kind token.now.kind ≡ pure.name }
    ensures { view_sense result ≡ reading.word_of (view_token token.now) }
{
    let spelling = token.spelling.items();
    if is_free(spelling) {
        return Sense::Name(&token.spelling);
    }
    if is_constant(spelling) {
        return Sense::Literal(py_tree::TokenKind::Name, &token.spelling);
    }
    match fixed_keyword(spelling) {
        Some(fixed) => Sense::Fixed(fixed),
        None => Sense::Other(token),
    }
}

// What a token is to the grammar.
fn sense_of(token: &Token) -> Sense<'_>
    ensures { view_sense result ≡ reading.word_of (view_token token.now) }
{
    match &token.kind {
        TokenKind::Name => sense_of_name(token),
        TokenKind::Number => Sense::Literal(py_tree::TokenKind::Number, &token.spelling),
        TokenKind::Text => Sense::Literal(py_tree::TokenKind::Text, &token.spelling),
        TokenKind::FText(pieces) => Sense::FText(&token.spelling, pieces),
        TokenKind::Mark => match fixed_mark(token.spelling.items()) {
            Some(fixed) => Sense::Fixed(fixed),
            None => Sense::Other(token),
        },
    }
}

// The word that a token is.
fn word_of(token: &Token) -> Word<'_>
    ensures { view_word result ≡ reading.word_of (view_token token.now) }
{
    Word {
        sense: sense_of(token),
    }
}

/// The words that tokens are, in the same order. Each token is looked at once.
pub fn words(alloc: Global, tokens: &[Token]) -> Result<Vec<Word<'_>>, AllocError>
    ensures { IfOk result (λ ws. view_words ws.items ≡ reading.words (map view_token tokens.now)) }
{
    let mut words = Vec::with_capacity(alloc, tokens.len())?;
    for token in tokens {
        words.push(word_of(token))?;
    }
    Ok(words)
}
