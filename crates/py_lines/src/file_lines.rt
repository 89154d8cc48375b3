// Bytes to logical lines.
ghost use Rattle.std.specs.Prelude.{◌+◌, ◌<◌, ◌^◌, length};
ghost use Rattle.py_lexer.specs.Answers.{Answers};
ghost use Rattle.py_lexer.specs.ScanView.{view_lines};

use crate::tokens::token;
use py_lexer::{LexFault, lines_by};
use py_tokens::{LogicalLine, Names};
use std::alloc::Global;

/// The logical lines that the bytes are, or the line at which they are refused: `NotUtf8` with the line of the first byte that is no part of
/// a character, or `Token` (Python language reference, section 2.1).
pub fn lines(alloc: Global, bytes: &[u8]) -> Result<Vec<LogicalLine>, LexFault>
    requires small { length bytes.now + 1 < 2 ^ 32 }
    ensures { Answers bytes.now (view_lines result) }
{
    let mut names = Names::new(alloc);
    lines_by(alloc, bytes, &mut names, token)
}
