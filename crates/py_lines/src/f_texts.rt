// f-texts.
ghost use Rattle.std.specs.Prelude.{◌≡◌, ◌++◌, IfOk, MatchOption, None, map, option_map};
ghost use Rattle.lexical_form.specs.FTexts.{characters_piece, has_r};
ghost use Rattle.lexical_form.specs.TokenReader.{next};
ghost use Rattle.py_tokens.specs.TokenView.{view_piece};
ghost use Rattle.py_lexer.specs.Views.{quotes};
ghost use Rattle.py_lines.specs.FTextCuts.{FTextCut, Opens, opened_says};
ghost use Rattle.py_lines.specs.PieceView.{built};

use crate::pieces::pieces;
use crate::said::Said;
use py_lexer::{Quotes, is_f_text_prefix, is_quote, opening, word};
use py_tokens::{Names, Piece};
use std::alloc::{AllocError, Global};

fn is_raw(prefix: &[u8]) -> bool
    ensures { result ≡ has_r prefix.now }
{
    prefix.iter().any(|byte| *byte == b'r' || *byte == b'R')
}

/// The quotes of the f-text that begins at the front, and what is behind its opening quotes; none where no f-text begins there.
pub fn opened(bytes: &[u8]) -> Option<(Quotes, &[u8])>
    ensures { option_map (λ p. (quotes p.0, p.1.now)) result ≡ opened_says bytes.now }
{
    let (prefix, rest) = word(bytes);
    let [mark, behind @ ..] = rest else {
        return None;
    };
    if !is_f_text_prefix(prefix) {
        return None;
    }
    if !is_quote(*mark) {
        return None;
    }
    let (q, inside) = opening(is_raw(prefix), *mark, behind);
    Some((q, inside))
}

// All pieces.
fn all_pieces(alloc: Global, said: Said) -> Result<Vec<Piece>, AllocError>
    ensures { IfOk result (λ v. map view_piece v.items ≡ (built said).0 ++ characters_piece (built said).1) }
{
    let mut said = said;
    said.end_characters(alloc)?;
    Ok(said.pieces)
}

/// The pieces of the f-text that begins at the front, and how many bytes it has; none where no token begins there.
pub fn f_text(
    alloc: Global,
    names: &mut Names,
    q: Quotes,
    text: &str,
    inside: &[u8],
) -> Result<Option<(Vec<Piece>, usize)>, AllocError>
    requires { Opens text.now (quotes q) inside.now }
    ensures { IfOk result (λ o. MatchOption o (next text.now ≡ None) (λ p. FTextCut text.now p.1 (map view_piece p.0.items))) }
{
    let bytes = text.as_bytes();
    let (_front, within) = text.split_at(bytes.len().saturating_sub(inside.len()));
    let Some((said, behind)) = pieces(alloc, names, q, within)? else {
        return Ok(None);
    };
    let len = bytes.len().saturating_sub(behind.len());
    let all = all_pieces(alloc, said)?;
    Ok(Some((all, len)))
}
