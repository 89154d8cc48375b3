// Brackets that are open.
ghost use Rattle.std.specs.Prelude.{◌≡◌, OnOk, cond, Some, None, ◌∷◌};
ghost use Rattle.lexical_form.specs.Brackets as brackets;
ghost use Rattle.lexical_form.specs.Lines as lines;
ghost use Rattle.lexical_form.specs.Bytes.{is_empty};
ghost use Rattle.py_lexer.specs.BracketView.{opened, view_bracket};

use std::alloc::{AllocError, Global};

/// A bracket that is open: the byte that closes it, and its line.
#[derive(Clone, Copy, Debug)]
pub struct Bracket {
    pub closing: u8,
    pub line: u32,
}

/// The brackets that are open, the innermost last.
#[derive(Debug, Drop)]
pub struct Brackets {
    stack: Vec<Bracket>,
}

impl Brackets {
    pub fn new(alloc: Global) -> Brackets
        ensures { opened result ≡ lines.start.brackets }
    {
        Brackets {
            stack: Vec::new(alloc),
        }
    }

    // Whether the byte closes no bracket but the innermost.
    pub fn matches(&self, byte: u8) -> bool
        ensures { result ≡ lines.may_close (opened self.now) byte }
    {
        if !is_closing(byte) {
            return true;
        }
        match self.stack.last() {
            Some(bracket) => bracket.closing == byte,
            None => false,
        }
    }

    pub fn is_empty(&self) -> bool
        ensures { result ≡ is_empty (opened self.now) }
    {
        self.stack.is_empty()
    }

    // The line of the outermost bracket.
    #[tactic(auto, using(crate::proofs::Scanning::outermost_is))]
    pub fn outermost(&self) -> Option<u32>
        ensures { result ≡ cond (is_empty (opened self.now)) None (Some (lines.outermost (opened self.now))) }
    {
        if self.stack.is_empty() {
            return None;
        }
        Some(self.stack[0].line)
    }

    // A bracket more.
    #[tactic(auto, using(crate::proofs::Scanning::pushed))]
    fn open(&mut self, bracket: Bracket) -> Result<(), AllocError>
        ensures { OnOk result (opened self.new ≡ view_bracket bracket ∷ opened self.old) }
    {
        self.stack.push(bracket)?;
        Ok(())
    }

    // Opens or closes the bracket that the byte is.
    pub fn pass(&mut self, byte: u8, line: u32) -> Result<(), AllocError>
        ensures { OnOk result (opened self.new ≡ lines.brackets_after (opened self.old) line byte) }
    {
        if is_closing(byte) {
            self.stack.pop();
            return Ok(());
        }
        let closing = closing_of(byte);
        if closing == 0 {
            return Ok(());
        }
        self.open(Bracket { closing, line })
    }
}

/// The byte that closes the bracket that the byte opens; 0 where it opens none.
pub fn closing_of(byte: u8) -> u8
    ensures { result ≡ brackets.closing_of byte }
{
    match byte {
        b'(' => b')',
        b'[' => b']',
        b'{' => b'}',
        _ => 0,
    }
}

/// Whether the byte is `)`, `]` or `}`.
pub fn is_closing(byte: u8) -> bool
    ensures { result ≡ brackets.is_closing byte }
{
    byte == b')' || byte == b']' || byte == b'}'
}

/// The byte of a spelling of one byte, else 0.
pub fn single(spelling: &[u8]) -> u8
    ensures { result ≡ brackets.single spelling.now }
{
    match spelling {
        [byte] => *byte,
        _ => 0,
    }
}
