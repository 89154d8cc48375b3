// Tokens that hold no other tokens.
ghost use Rattle.std.specs.Prelude.{◌≡◌, [], option_map};
ghost use Rattle.py_tree.specs.Names.{is_among};
ghost use Rattle.py_lexer.specs.Ends as ends;
ghost use Rattle.lexical_form.specs.Plain as plains;
ghost use Rattle.lexical_form.specs.Texts as texts;
ghost use Rattle.lexical_form.specs.TextReader as reader;
ghost use Rattle.py_lexer.specs.Views.{quotes, plain_kind};

use crate::marks::mark_len;
use crate::numbers::is_number;
use crate::texts::{Quotes, items};
use crate::words::{is_digit, is_quote, starts_quote, word};

/// What a token is that holds no other tokens.
#[derive(Clone, Copy, Debug)]
pub enum PlainKind {
    Name,
    Number,
    Text,
    Mark,
}

/// Whether the word is a prefix of texts.
pub fn is_text_prefix(word: &[u8]) -> bool
    ensures { result ≡ is_among word.now texts.text_prefixes }
{
    matches!(word, [b'r' | b'R'])
}

/// Whether the word is a prefix of f-texts.
pub fn is_f_text_prefix(word: &[u8]) -> bool
    ensures { result ≡ is_among word.now plains.f_text_prefixes }
{
    match word {
        [b'f' | b'F'] => true,
        [b'f' | b'F', b'r' | b'R'] => true,
        [b'r' | b'R', b'f' | b'F'] => true,
        _ => false,
    }
}

/// The quotes that open, of which the first is read, and what is behind them.
pub fn opening(raw: bool, mark: u8, bytes: &[u8]) -> (Quotes, &[u8])
    ensures quotes { quotes result.0 ≡ reader.opening raw mark bytes.now }
    ensures behind { result.1.now ≡ reader.behind_opening (reader.opening raw mark bytes.now) bytes.now }
{
    match bytes {
        [a, b, rest @ ..] => {
            if *a == mark && *b == mark {
                let q = Quotes {
                    mark,
                    three: true,
                    raw,
                };
                return (q, rest);
            }
        }
        _ => {}
    }
    (
        Quotes {
            mark,
            three: false,
            raw,
        },
        bytes,
    )
}

/// What is behind the closing quotes, where they stand at the front.
pub fn behind_closing(q: Quotes, bytes: &[u8]) -> Option<&[u8]>
    ensures { option_map (λ r. r.now) result ≡ reader.behind (texts.side (quotes q)) bytes.now }
{
    let [a, rest @ ..] = bytes else {
        return None;
    };
    if *a != q.mark {
        return None;
    }
    if !q.three {
        return Some(rest);
    }
    let [b, rest @ ..] = rest else {
        return None;
    };
    if *b != q.mark {
        return None;
    }
    let [c, rest @ ..] = rest else {
        return None;
    };
    if *c != q.mark {
        return None;
    }
    Some(rest)
}

// What is behind a text, of which the prefix is read.
fn quoted(raw: bool, bytes: &[u8]) -> Option<&[u8]>
    ensures { option_map (λ r. r.now) result ≡ ends.quoted_end raw bytes.now }
{
    let [mark, rest @ ..] = bytes else {
        return None;
    };
    if !is_quote(*mark) {
        return None;
    }
    let (q, inside) = opening(raw, *mark, rest);
    behind_closing(q, items(q, inside))
}

type Found<'a> = Option<(PlainKind, &'a [u8])>;

// Behind a word, which a quote follows.
fn before_quote<'a>(name: &[u8], rest: &'a [u8]) -> Found<'a>
    ensures { option_map (λ p. (plain_kind p.0, p.1.now)) result ≡ ends.prefix_end name.now rest.now }
{
    if is_text_prefix(name) {
        return match quoted(true, rest) {
            Some(behind) => Some((PlainKind::Text, behind)),
            None => None,
        };
    }
    if is_f_text_prefix(name) {
        return None;
    }
    Some((PlainKind::Name, rest))
}

// Where no word stands: a text or a mark.
fn without_word(bytes: &[u8]) -> Found
    ensures { option_map (λ p. (plain_kind p.0, p.1.now)) result ≡ ends.word_end [] bytes.now }
{
    if starts_quote(bytes) {
        return match quoted(false, bytes) {
            Some(behind) => Some((PlainKind::Text, behind)),
            None => None,
        };
    }
    let n = mark_len(bytes);
    if n == 0 {
        return None;
    }
    Some((PlainKind::Mark, &bytes[n..]))
}

/// What the token at the front is, and what is behind it.
pub fn plain(bytes: &[u8]) -> Found
    ensures { option_map (λ p. (plain_kind p.0, p.1.now)) result ≡ ends.plain_end bytes.now }
{
    let (name, rest) = word(bytes);
    let [first, ..] = name else {
        return without_word(rest);
    };
    if is_digit(*first) {
        return if is_number(name) {
            Some((PlainKind::Number, rest))
        } else {
            None
        };
    }
    if starts_quote(rest) {
        return before_quote(name, rest);
    }
    Some((PlainKind::Name, rest))
}
