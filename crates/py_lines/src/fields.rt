// The tokens of a field.
ghost use Rattle.std.specs.Prelude.{◌≡◌, ◌++◌, ◌∷◌, [], IfOk, IfSome, OnOk, option_map};
ghost use Rattle.std.specs.Str.{IsUtf8};
ghost use Rattle.lexical_form.specs.Brackets as brackets;
ghost use Rattle.lexical_form.specs.Fields as fields;
ghost use Rattle.lexical_form.specs.FTexts.{token_of};
ghost use Rattle.lexical_form.specs.PlainReader.{next_plain};
ghost use Rattle.lexical_form.specs.TokenReader.{some_plain};
ghost use Rattle.py_tokens.specs.TokenView.{view_token};
ghost use Rattle.py_lines.specs.FieldCuts.{FieldCut};
ghost use Rattle.py_lines.specs.FieldSteps.{inside, step_says, token_stepped};
ghost use Rattle.py_lines.specs.PlainView.{plain_of};

use crate::plain_tokens::{owned, plain_at};
use py_lexer::{closing_of, is_closing, single};
use py_tokens::{Names, Token};
use std::alloc::{AllocError, Global};

/// The tokens of a field so far, and the brackets that are open among them, the innermost last.
#[derive(Debug, Drop)]
pub struct Inside {
    pub tokens: Vec<Token>,
    pub stack: Vec<u8>,
}

fn is_blank(byte: u8) -> bool
    ensures { result ≡ fields.is_blank byte }
{
    byte == b' ' || byte == b'\t'
}

impl Inside {
    fn new(alloc: Global) -> Inside
        ensures { inside result ≡ ([], []) }
    {
        Inside {
            tokens: Vec::new(alloc),
            stack: Vec::new(alloc),
        }
    }

    // Whether the byte closes no bracket but the innermost.
    fn matches(&self, spelling: &[u8]) -> bool
        ensures { result ≡ brackets.matches (inside self.now).0 spelling.now }
    {
        let byte = single(spelling);
        if !is_closing(byte) {
            return true;
        }
        match self.stack.last() {
            Some(closing) => *closing == byte,
            None => false,
        }
    }

    fn may_come(&self, spelling: &[u8]) -> bool
        ensures { result ≡ fields.may_come (inside self.now).0 spelling.now }
    {
        self.matches(spelling) && !(self.stack.is_empty() && single(spelling) == b':')
    }

    // Opens or closes the bracket that the token is.
    fn pass(&mut self, spelling: &[u8]) -> Result<(), AllocError>
        ensures stack { OnOk result ((inside self.new).0 ≡ brackets.open_after (inside self.old).0 spelling.now) }
        ensures tokens { OnOk result ((inside self.new).1 ≡ (inside self.old).1) }
    {
        let byte = single(spelling);
        if is_closing(byte) {
            self.stack.pop();
            return Ok(());
        }
        let closing = closing_of(byte);
        if closing != 0 {
            self.stack.push(closing)?;
        }
        Ok(())
    }

    fn take(&mut self, token: Token) -> Result<(), AllocError>
        ensures stack { OnOk result ((inside self.new).0 ≡ brackets.open_after (inside self.old).0 token.spelling) }
        ensures tokens { OnOk result ((inside self.new).1 ≡ (inside self.old).1 ++ view_token token ∷ []) }
    {
        self.pass(token.spelling.items().as_bytes())?;
        self.tokens.push(token)?;
        Ok(())
    }

    // Takes the token at the front, and answers what is behind it.
    fn token<'a>(
        &mut self,
        alloc: Global,
        names: &mut Names,
        text: &'a str,
    ) -> Result<Option<&'a str>, AllocError>
        ensures steps { IfOk result (λ o. (inside self.new, option_map (λ r. r.now) o)
            ≡ token_stepped (inside self.old) (some_plain (next_plain text.now))) }
        ensures text { IfOk result (λ o. IfSome o (λ r. IsUtf8 r.now)) }
    {
        let Some((kind, spelling, behind)) = plain_at(text) else {
            return Ok(None);
        };
        if !self.may_come(spelling.as_bytes()) {
            return Ok(None);
        }
        self.take(owned(alloc, names, kind, spelling)?)?;
        Ok(Some(behind))
    }

    // Takes the item at the front, and answers what is behind it.
    fn step<'a>(
        &mut self,
        alloc: Global,
        names: &mut Names,
        text: &'a str,
    ) -> Result<Option<&'a str>, AllocError>
        ensures steps { IfOk result (λ o. (inside self.new, option_map (λ r. r.now) o) ≡ step_says (inside self.old) text.now) }
        ensures text { IfOk result (λ o. IfSome o (λ r. IsUtf8 r.now)) }
    {
        let [first, ..] = text.as_bytes() else {
            return Ok(None);
        };
        if is_blank(*first) {
            let (_blank, behind) = text.split_at(1);
            return Ok(Some(behind));
        }
        self.token(alloc, names, text)
    }
}

/// Takes tokens and blanks as far as they go, and answers what is behind them.
pub fn items<'a>(
    alloc: Global,
    names: &mut Names,
    text: &'a str,
) -> Result<(Inside, &'a str), AllocError>
    ensures { IfOk result (λ r. FieldCut text.now (inside r.0) r.1.now) }
{
    let mut found = Inside::new(alloc);
    let mut rest = text;
    while let Some(behind) = found.step(alloc, names, rest)? {
        rest = behind;
    }
    Ok((found, rest))
}
