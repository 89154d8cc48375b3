// The pieces of an f-text.
ghost use Rattle.std.specs.Prelude.{◌≡◌, IfOk, IsTrue, MatchOption, None};
ghost use Rattle.lexical_form.specs.Bytes as kinds;
ghost use Rattle.lexical_form.specs.FTextReader.{f_part_at};
ghost use Rattle.lexical_form.specs.TextReader.{items_at};
ghost use Rattle.py_lexer.specs.Views.{quotes};
ghost use Rattle.py_lines.specs.PieceView.{built};
ghost use Rattle.py_lines.specs.PiecesRead.{PiecesRead};

use crate::said::Said;
use py_lexer::{Quotes, behind_closing};
use py_tokens::Names;
use std::alloc::{AllocError, Global};

/// What an f-text says whose opening quotes are read, and what is behind its closing quotes; none where it isn't closed or says nothing.
pub fn pieces<'a>(
    alloc: Global,
    names: &mut Names,
    q: Quotes,
    text: &'a str,
) -> Result<Option<(Said, &'a [u8])>, AllocError>
    requires { IsTrue (kinds.is_quote q.mark) }
    ensures { IfOk result (λ o. MatchOption o (items_at f_part_at (quotes q) text.now ≡ None)
        (λ p. PiecesRead (quotes q) text.now (built p.0) p.1.now)) }
{
    let mut said = Said::new(alloc);
    let mut rest = text;
    loop {
        if let Some(behind) = behind_closing(q, rest.as_bytes()) {
            return Ok(Some((said, behind)));
        }
        let Some(behind) = said.item(alloc, names, q, rest)? else {
            return Ok(None);
        };
        rest = behind;
    }
}
