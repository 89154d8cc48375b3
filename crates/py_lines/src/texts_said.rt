// What texts say.
ghost use Rattle.std.specs.Prelude.{◌≡◌, IfOk, IsTrue, MatchOption, None, option_map, string_bytes};
ghost use Rattle.lexical_form.specs.Bytes as kinds;
ghost use Rattle.lexical_form.specs.TextReader.{items_at, part_at};
ghost use Rattle.py_lexer.specs.Views.{quotes};
ghost use Rattle.py_lines.specs.PieceView.{built};
ghost use Rattle.py_lines.specs.TextsSaid.{IsNoText, Says, TextRead, text_opened_says};

use crate::said::Said;
use py_lexer::{Quotes, behind_closing, is_quote, is_text_prefix, opening, word};
use std::alloc::{AllocError, Global};

/// The characters that the text says whose spelling this is; none where it isn't the spelling of a text (Python language reference, section
/// 2.4.1).
pub fn literal_text(alloc: Global, spelling: &str) -> Result<Option<String>, AllocError>
    ensures { IfOk result (λ o. MatchOption o (IsNoText spelling.now) (λ s. Says spelling.now (string_bytes s))) }
{
    let bytes = spelling.as_bytes();
    let Some((q, inside)) = opened(bytes) else {
        return Ok(None);
    };
    let (_front, within) = spelling.split_at(bytes.len().saturating_sub(inside.len()));
    let Some((characters, behind)) = characters(alloc, q, within)? else {
        return Ok(None);
    };
    if !behind.is_empty() {
        return Ok(None);
    }
    Ok(Some(characters))
}

// The quotes of the text that begins at the front, and what is behind its opening quotes.
fn opened(bytes: &[u8]) -> Option<(Quotes, &[u8])>
    ensures { option_map (λ p. (quotes p.0, p.1.now)) result ≡ text_opened_says bytes.now }
{
    let (prefix, rest) = word(bytes);
    let [mark, behind @ ..] = rest else {
        return None;
    };
    if !prefix.is_empty() && !is_text_prefix(prefix) {
        return None;
    }
    if !is_quote(*mark) {
        return None;
    }
    let (q, inside) = opening(!prefix.is_empty(), *mark, behind);
    Some((q, inside))
}

// The characters up to the closing quotes, and what is behind these.
fn characters(alloc: Global, q: Quotes, text: &str) -> Result<Option<(String, &[u8])>, AllocError>
    requires { IsTrue (kinds.is_quote q.mark) }
    ensures { IfOk result (λ o. MatchOption o (items_at part_at (quotes q) text.now ≡ None)
        (λ p. TextRead (quotes q) text.now (string_bytes p.0) p.1.now)) }
{
    let mut said = Said::new(alloc);
    let mut rest = text;
    loop {
        if let Some(behind) = behind_closing(q, rest.as_bytes()) {
            return Ok(Some((said.front, behind)));
        }
        let Some(behind) = said.text_item(q, rest)? else {
            return Ok(None);
        };
        rest = behind;
    }
}
