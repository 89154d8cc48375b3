// Bytes to logical lines.
ghost use Rattle.std.specs.Prelude.{◌≡◌, ◌+◌, ◌<◌, ◌^◌, length};
ghost use Rattle.py_lexer.specs.Answers.{Answers, Answered, Ends};
ghost use Rattle.lexical_form.specs.Lines as lines;
ghost use Rattle.py_lexer.specs.ScanView.{ReadsTokens, state, view_lines};

use crate::fault::LexFault;
use crate::file_text::{is_clean, is_readable, readable};
use crate::scan::{Scan, cut, line_ends};
use py_tokens::{LogicalLine, Names, Token};
use std::alloc::{AllocError, Global};

/// The logical lines that the bytes are, or the line at which they are refused: `NotUtf8` with the line of the first byte that is no part of
/// a character, or `Token` (Python language reference, section 2.1). `next` reads the longest token at the front of a text,
/// and notes its names.
pub fn lines_by<
    F: for<'s> Fn(Global, &mut Names, &'s str) -> Result<Option<(Token, &'s str)>, AllocError>
        + Copy,
>(alloc: Global, bytes: &[u8], names: &mut Names, next: F) -> Result<Vec<LogicalLine>, LexFault>
    requires reads { ReadsTokens (F.pre next) (F.post next) }
    requires small { length bytes.now + 1 < 2 ^ 32 }
    ensures { Answers bytes.now (view_lines result) }
{
    let text = match str::from_utf8(bytes) {
        Ok(text) => text,
        Err(fault) => {
            let good = fault.valid_up_to();
            return Err(LexFault::NotUtf8 {
                line: 1 + line_ends(&bytes[..good]),
            });
        }
    };
    if is_clean(bytes) {
        return text_lines(alloc, names, text, true, next);
    }
    let copy = readable(alloc, text)?;
    text_lines(alloc, names, copy.as_str(), is_readable(bytes), next)
}

// The answer about a text of which all that is barred is cut off.
#[tactic(auto, using(crate::proofs::AnswerLaws::answered))]
fn text_lines<
    F: for<'s> Fn(Global, &mut Names, &'s str) -> Result<Option<(Token, &'s str)>, AllocError>
        + Copy,
>(
    alloc: Global,
    names: &mut Names,
    text: &str,
    whole: bool,
    next: F,
) -> Result<Vec<LogicalLine>, LexFault>
    requires reads { ReadsTokens (F.pre next) (F.post next) }
    requires small { length text.now + 1 < 2 ^ 32 }
    ensures { Answered whole text.now (view_lines result) }
{
    let (scan, rest) = cut(alloc, names, text, next)?;
    answer(alloc, scan, rest, whole)
}

// What is answered behind the pieces.
fn answer(alloc: Global, scan: Scan, rest: &str, whole: bool) -> Result<Vec<LogicalLine>, LexFault>
    ensures { Ends whole (state scan) rest.now (view_lines result) }
{
    if !rest.is_empty() || !whole {
        return Err(LexFault::Token { line: scan.line() });
    }
    if let Some(line) = scan.outermost() {
        return Err(LexFault::Token { line });
    }
    Ok(scan.into_lines(alloc)?)
}
