// One scan over a text.
ghost use Rattle.std.specs.Str.{IsUtf8, IsCharBoundary};
ghost use Rattle.std.specs.Prelude.{IsTrue, drop, nat_lt, ◌≡◌, ◌+◌, ◌<◌, ◌≤◌, ◌^◌, ◌==◌, IfOk, IfSome, OnOk, length, option_map, map, cond, Some, None, ◌∷◌, []};
ghost use Rattle.py_tokens.specs.TokenView.{view_line, view_token};
ghost use Rattle.lexical_form.specs.Lines as lines;
ghost use Rattle.lexical_form.specs.TokenReader as lexing;
ghost use Rattle.lexical_form.specs.Bytes.{is_empty, starts};
ghost use Rattle.py_lexer.specs.BracketView.{opened};
ghost use Rattle.py_lexer.specs.ScanView.{state, comment_end, step_says, token_says, seen, ReadsTokens};

use crate::brackets::{Brackets, single};
use py_tokens::{LogicalLine, Names, Token, Tokens};
use std::alloc::{AllocError, Global};

/// What a scan has found so far.
#[derive(Debug, Drop)]
pub struct Scan {
    line: u32,
    brackets: Brackets,
    done: Vec<LogicalLine>,
    indent: u32,
    tabbed: bool,
    number: u32,
    tokens: Vec<Token>,
}

impl Scan {
    fn new(alloc: Global) -> Scan
        ensures { state result ≡ lines.start }
    {
        Scan {
            line: 1,
            brackets: Brackets::new(alloc),
            done: Vec::new(alloc),
            indent: 0,
            tabbed: false,
            number: 1,
            tokens: Vec::new(alloc),
        }
    }

    fn space(&mut self)
        requires { self.old.indent + 1 < 2 ^ 32 }
        ensures { state self.new ≡ lines.after (state self.old) lines.space }
    {
        if self.tokens.is_empty() {
            self.indent += 1;
        }
    }

    fn tab(&mut self)
        ensures { state self.new ≡ lines.after (state self.old) lines.tab }
    {
        if self.tokens.is_empty() {
            self.tabbed = true;
        }
    }

    // Puts the line that isn't done among those that are.
    fn finish(&mut self, alloc: Global) -> Result<(), AllocError>
        ensures done { OnOk result (map view_line self.new.done.items ≡ lines.lines_of (state self.old)) }
        ensures same { OnOk result ((self.new.line ≡ self.old.line) × (opened self.new.brackets ≡ opened self.old.brackets) × (self.new.tokens.items ≡ [])) }
    {
        if self.tokens.is_empty() {
            return Ok(());
        }
        let tokens = std::mem::replace(&mut self.tokens, Vec::new(alloc));
        self.done.push(LogicalLine {
            line: self.number,
            indent: self.indent,
            tokens: Tokens::of(tokens),
        })?;
        Ok(())
    }

    fn end_line(&mut self, alloc: Global) -> Result<(), AllocError>
        requires { self.old.line + 1 < 2 ^ 32 }
        ensures { OnOk result (state self.new ≡ lines.after (state self.old) lines.line_end) }
    {
        if !self.brackets.is_empty() {
            self.line += 1;
            return Ok(());
        }
        self.finish(alloc)?;
        self.line += 1;
        self.indent = 0;
        self.tabbed = false;
        self.number = 1;
        Ok(())
    }

    // Whether the token may stand here.
    fn may_take(&self, token: &Token) -> bool
        ensures { result ≡ lines.may_take (state self.now) (view_token token.now) }
    {
        self.brackets
            .matches(single(token.spelling.items().as_bytes()))
            && !(self.tokens.is_empty() && self.tabbed)
    }

    fn take(&mut self, token: Token) -> Result<(), AllocError>
        requires { self.old.line + length token.spelling < 2 ^ 32 }
        ensures { OnOk result (state self.new ≡ lines.after (state self.old) (lines.a_token (view_token token))) }
    {
        let spelling = token.spelling.items().as_bytes();
        let ends = line_ends(spelling);
        self.brackets.pass(single(spelling), self.line)?;
        if self.tokens.is_empty() {
            self.number = self.line;
        }
        self.line += ends;
        self.tokens.push(token)?;
        Ok(())
    }
}

impl Scan {
    /// The line at which the scan stands.
    pub fn line(&self) -> u32
        ensures { result ≡ (state self.now).line }
    {
        self.line
    }

    /// The line of the outermost bracket that is open.
    pub fn outermost(&self) -> Option<u32>
        ensures { result ≡ cond (is_empty (state self.now).brackets) None (Some (lines.outermost (state self.now).brackets)) }
    {
        self.brackets.outermost()
    }

    /// The lines.
    pub fn into_lines(self, alloc: Global) -> Result<Vec<LogicalLine>, AllocError>
        ensures { IfOk result (λ v. map view_line v.items ≡ lines.lines_of (state self)) }
    {
        let mut scan = self;
        scan.finish(alloc)?;
        Ok(scan.done)
    }
}

// How many line ends there are.
pub fn line_ends(bytes: &[u8]) -> u32
    requires { length bytes.now < 2 ^ 32 }
    ensures is { result ≡ lines.line_ends bytes.now }
    ensures small { result ≤ length bytes.now }
{
    let mut ends: u32 = 0;
    for byte in bytes {
        if *byte == b'\n' {
            ends += 1;
        }
    }
    ends
}

// What is behind the first byte.
fn behind_first(text: &str) -> &str
    requires { IsTrue (starts (λ c. nat_lt c 128) text.now) }
    ensures { result.now ≡ drop 1 text.now }
{
    let (_first, behind) = text.split_at(1);
    behind
}

// What is behind a comment, of which the `#` is read.
fn behind_comment(text: &str) -> &str
    ensures { result.now ≡ comment_end text.now }
{
    let (_comment, behind) = text.split_at(comment_len(text.as_bytes()));
    behind
}

// How many bytes stand before the line's end.
fn comment_len(bytes: &[u8]) -> usize
    ensures behind { drop result bytes.now ≡ comment_end bytes.now }
    ensures boundary { IsCharBoundary bytes.now result }
{
    let mut len = 0;
    while len < bytes.len() && bytes[len] != b'\n' {
        len += 1;
    }
    len
}

// The token at the front, which is no longer than the text.
fn token_at<
    'a,
    F: for<'s> Fn(Global, &mut Names, &'s str) -> Result<Option<(Token, &'s str)>, AllocError>,
>(
    alloc: Global,
    names: &mut Names,
    rest: &'a str,
    next: F,
) -> Result<Option<(Token, &'a str)>, AllocError>
    requires { ReadsTokens (F.pre next) (F.post next) }
    ensures reads { IfOk result (λ o. seen o ≡ lexing.next rest.now) }
    ensures short { IfOk result (λ o. IfSome o (λ p. length p.0.spelling ≤ length rest.now)) }
    ensures text { IfOk result (λ o. IfSome o (λ p. IsUtf8 p.1.now)) }
{
    next(alloc, names, rest)
}

impl Scan {
    // Takes the piece at the front, and answers what is behind it.
    fn step<
        'a,
        F: for<'s> Fn(Global, &mut Names, &'s str) -> Result<Option<(Token, &'s str)>, AllocError>,
    >(
        &mut self,
        alloc: Global,
        names: &mut Names,
        rest: &'a str,
        next: F,
    ) -> Result<Option<&'a str>, AllocError>
        requires reads { ReadsTokens (F.pre next) (F.post next) }
        requires line { self.old.line + length rest.now < 2 ^ 32 }
        requires indent { self.old.indent + length rest.now < 2 ^ 32 }
        ensures steps { IfOk result (λ o. (state self.new, option_map (λ r. r.now) o) ≡ step_says (state self.old) rest.now) }
        ensures text { IfOk result (λ o. IfSome o (λ r. IsUtf8 r.now)) }
    {
        let [first, ..] = rest.as_bytes() else {
            return Ok(None);
        };
        if *first == b' ' {
            self.space();
            return Ok(Some(behind_first(rest)));
        }
        if *first == b'\t' {
            self.tab();
            return Ok(Some(behind_first(rest)));
        }
        if *first == b'\n' {
            self.end_line(alloc)?;
            return Ok(Some(behind_first(rest)));
        }
        if *first == b'#' {
            return Ok(Some(behind_comment(behind_first(rest))));
        }
        self.token(alloc, names, rest, next)
    }

    // Takes the token at the front, and answers what is behind it.
    fn token<
        'a,
        F: for<'s> Fn(Global, &mut Names, &'s str) -> Result<Option<(Token, &'s str)>, AllocError>,
    >(
        &mut self,
        alloc: Global,
        names: &mut Names,
        rest: &'a str,
        next: F,
    ) -> Result<Option<&'a str>, AllocError>
        requires reads { ReadsTokens (F.pre next) (F.post next) }
        requires line { self.old.line + length rest.now < 2 ^ 32 }
        ensures steps { IfOk result (λ o. (state self.new, option_map (λ r. r.now) o) ≡ token_says (state self.old) (lexing.next rest.now)) }
        ensures text { IfOk result (λ o. IfSome o (λ r. IsUtf8 r.now)) }
    {
        let Some((token, behind)) = token_at(alloc, names, rest, next)? else {
            return Ok(None);
        };
        if !self.may_take(&token) {
            return Ok(None);
        }
        self.take(token)?;
        Ok(Some(behind))
    }
}

// Takes pieces as far as they go, and answers what is behind them.
pub fn cut<
    'a,
    F: for<'s> Fn(Global, &mut Names, &'s str) -> Result<Option<(Token, &'s str)>, AllocError>
        + Copy,
>(alloc: Global, names: &mut Names, text: &'a str, next: F) -> Result<(Scan, &'a str), AllocError>
    requires reads { ReadsTokens (F.pre next) (F.post next) }
    requires small { length text.now + 1 < 2 ^ 32 }
    ensures { IfOk result (λ r. lines.Cut text.now (state r.0) r.1.now) }
{
    let mut scan = Scan::new(alloc);
    let mut rest = text;
    while let Some(behind) = scan.step(alloc, names, rest, next)? {
        rest = behind;
    }
    Ok((scan, rest))
}
