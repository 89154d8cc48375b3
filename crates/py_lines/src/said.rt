// What the parts of an f-text say.
ghost use Rattle.std.specs.Prelude.{◌≡◌, ◌∷◌, ◌++◌, [], ◌==◌, IfOk, IfSome, IsTrue, MatchOption, None, OnOk, Some, drop, nat_lt, not, option_map, string_bytes};
ghost use Rattle.std.specs.Str.{IsUtf8};
ghost use Rattle.lexical_form.specs.Bytes as kinds;
ghost use Rattle.lexical_form.specs.Bytes.{starts};
ghost use Rattle.lexical_form.specs.FTexts.{characters_piece};
ghost use Rattle.lexical_form.specs.Meaning.{meant_byte, utf8};
ghost use Rattle.lexical_form.specs.Tokens as pure;
ghost use Rattle.py_tokens.specs.TokenView.{view_piece};
ghost use Rattle.py_lexer.specs.Views.{quotes};
ghost use Rattle.lexical_form.specs.Reading.{span};
ghost use Rattle.lexical_form.specs.Texts as texts;
ghost use Rattle.py_lines.specs.Characters as parts;
ghost use Rattle.py_lines.specs.Characters.{IsEscape};
ghost use Rattle.py_lines.specs.PieceView.{built};

use crate::field_ends::field;
use crate::runs::{run, split_first, split_lead};
use py_lexer::{Quotes, character, hex_digits};
use py_tokens::{Names, Piece};
use py_tree::Spelling;
use std::alloc::{AllocError, Global};

/// The pieces of an f-text so far: those that are done, and the characters since the last field.
#[derive(Debug, Drop)]
pub struct Said {
    pub pieces: Vec<Piece>,
    pub front: String,
}

fn characters(text: String) -> Piece
    ensures { view_piece result ≡ pure.characters (string_bytes text) }
{
    Piece::Chars(Spelling::of(text))
}

impl Said {
    pub fn new(alloc: Global) -> Said
        ensures { built result ≡ ([], []) }
    {
        Said {
            pieces: Vec::new(alloc),
            front: String::new(alloc),
        }
    }

    // Some characters more.
    fn say(&mut self, text: &str) -> Result<(), AllocError>
        ensures { OnOk result (built self.new ≡ parts.say (built self.old) text.now) }
    {
        self.front.push_str(text)?;
        Ok(())
    }

    // One character more.
    #[tactic(auto, using(crate::proofs::EscapeLaws::utf8_same))]
    fn say_char(&mut self, character: char) -> Result<(), AllocError>
        ensures { OnOk result (built self.new ≡ parts.say (built self.old) (utf8 character)) }
    {
        self.front.push(character)?;
        Ok(())
    }

    /// Puts the characters, if there are any, among the pieces that are done.
    pub fn end_characters(&mut self, alloc: Global) -> Result<(), AllocError>
        ensures { OnOk result (built self.new ≡ ((built self.old).0 ++ characters_piece (built self.old).1, [])) }
    {
        if self.front.is_empty() {
            return Ok(());
        }
        let front = std::mem::replace(&mut self.front, String::new(alloc));
        self.pieces.push(characters(front))?;
        Ok(())
    }

    // A field more.
    fn piece(&mut self, alloc: Global, piece: Piece) -> Result<(), AllocError>
        ensures { OnOk result (built self.new ≡ parts.with_piece (built self.old) (view_piece piece)) }
    {
        self.end_characters(alloc)?;
        self.pieces.push(piece)?;
        Ok(())
    }
}

fn starts_with(byte: u8, bytes: &[u8]) -> bool
    ensures { result ≡ starts (λ c. c == byte) bytes.now }
{
    match bytes {
        [first, ..] => *first == byte,
        [] => false,
    }
}

fn starts_brace(bytes: &[u8]) -> bool
    ensures { result ≡ starts kinds.is_brace bytes.now }
{
    match bytes {
        [first, ..] => *first == b'{' || *first == b'}',
        [] => false,
    }
}

// What the byte stands for behind a backslash, where that isn't both of them.
fn short(byte: u8) -> Option<&'static str>
    ensures { MatchOption result (meant_byte byte ≡ 92 ∷ byte ∷ []) (λ s. s.now ≡ meant_byte byte) }
{
    match byte {
        b'n' => Some("\n"),
        b'r' => Some("\r"),
        b't' => Some("\t"),
        b'a' => Some("\x07"),
        b'b' => Some("\x08"),
        b'f' => Some("\x0c"),
        b'v' => Some("\x0b"),
        b'\\' => Some("\\"),
        b'\'' => Some("'"),
        b'"' => Some("\""),
        b'\n' => Some(""),
        _ => None,
    }
}

// The character that the digits of an escape say whose first byte is at the front, and how many bytes they are with that byte.
fn digits(bytes: &[u8]) -> Option<(char, usize)>
    requires { IsTrue (starts (λ c. not (texts.hex_digits c == 0)) bytes.now) }
    ensures { MatchOption result (parts.first_meant bytes.now ≡ None)
        (λ p. (parts.first_meant bytes.now ≡ Some (utf8 p.0, drop p.1 bytes.now)) × IsEscape bytes.now p.1) }
{
    let [first, rest @ ..] = bytes else {
        return None;
    };
    let n = hex_digits(*first);
    if rest.len() < n {
        return None;
    }
    let Some(number) = character(&rest[..n]) else {
        return None;
    };
    Some((number, 1 + n))
}

impl Said {
    // Takes the brace that is spelled twice or the field at the front, and answers what is behind it.
    fn braced<'a>(
        &mut self,
        alloc: Global,
        names: &mut Names,
        q: Quotes,
        text: &'a str,
    ) -> Result<Option<&'a str>, AllocError>
        requires { IsTrue (starts kinds.is_brace text.now) }
        ensures steps { IfOk result (λ o. option_map (λ r. (built self.new, r.now)) o ≡ parts.braced_says (quotes q) (built self.old) text.now) }
        ensures text { IfOk result (λ o. IfSome o (λ r. IsUtf8 r.now)) }
    {
        let [first, ..] = text.as_bytes() else {
            return Ok(None);
        };
        let (brace, behind) = split_first(text);
        if starts_with(*first, behind.as_bytes()) {
            self.say(brace)?;
            let (_second, behind) = split_first(behind);
            return Ok(Some(behind));
        }
        if *first != b'{' {
            return Ok(None);
        }
        let Some((piece, behind)) = field(alloc, names, q, behind)? else {
            return Ok(None);
        };
        self.piece(alloc, piece)?;
        Ok(Some(behind))
    }

    // Takes the escape without digits whose first byte is at the front.
    fn short_escape<'a>(&mut self, text: &'a str) -> Result<Option<&'a str>, AllocError>
        requires ascii { IsTrue (starts (λ c. nat_lt c 128) text.now) }
        requires short { IsTrue (starts (λ c. texts.hex_digits c == 0) text.now) }
        ensures steps { IfOk result (λ o. option_map (λ r. (built self.new, r.now)) o ≡ parts.said (built self.old) (parts.first_meant text.now)) }
        ensures text { IfOk result (λ o. IfSome o (λ r. IsUtf8 r.now)) }
    {
        let [first, ..] = text.as_bytes() else {
            return Ok(None);
        };
        if first.is_ascii_digit() || *first == b'N' {
            return Ok(None);
        }
        let (byte, behind) = split_first(text);
        match short(*first) {
            Some(meant) => self.say(meant)?,
            None => {
                self.say("\\")?;
                self.say(byte)?;
            }
        }
        Ok(Some(behind))
    }

    // Takes the escape with digits whose first byte is at the front.
    fn long_escape<'a>(&mut self, text: &'a str) -> Result<Option<&'a str>, AllocError>
        requires { IsTrue (starts (λ c. not (texts.hex_digits c == 0)) text.now) }
        ensures steps { IfOk result (λ o. option_map (λ r. (built self.new, r.now)) o ≡ parts.said (built self.old) (parts.first_meant text.now)) }
        ensures text { IfOk result (λ o. IfSome o (λ r. IsUtf8 r.now)) }
    {
        let Some((number, len)) = digits(text.as_bytes()) else {
            return Ok(None);
        };
        self.say_char(number)?;
        let (_escape, behind) = text.split_at(len);
        Ok(Some(behind))
    }

    // Takes the escape behind a backslash, and answers what is behind it.
    fn escape<'a>(&mut self, q: Quotes, text: &'a str) -> Result<Option<&'a str>, AllocError>
        requires { IsTrue (kinds.is_quote q.mark) }
        ensures steps { IfOk result (λ o. option_map (λ r. (built self.new, r.now)) o ≡ parts.said (built self.old) (parts.escape_says (quotes q) text.now)) }
        ensures text { IfOk result (λ o. IfSome o (λ r. IsUtf8 r.now)) }
    {
        let [first, ..] = text.as_bytes() else {
            return Ok(None);
        };
        if *first >= 128 {
            let (front, behind) = run(q, text);
            self.say("\\")?;
            self.say(front)?;
            return Ok(Some(behind));
        }
        if !q.three && *first == b'\n' {
            return Ok(None);
        }
        if q.raw {
            let (byte, behind) = split_first(text);
            self.say("\\")?;
            self.say(byte)?;
            return Ok(Some(behind));
        }
        if hex_digits(*first) == 0 {
            return self.short_escape(text);
        }
        self.long_escape(text)
    }

    // Takes the part of which a backslash is read, and answers what is behind it.
    fn slashed<'a>(
        &mut self,
        alloc: Global,
        names: &mut Names,
        q: Quotes,
        text: &'a str,
    ) -> Result<Option<&'a str>, AllocError>
        requires { IsTrue (kinds.is_quote q.mark) }
        ensures steps { IfOk result (λ o. option_map (λ r. (built self.new, r.now)) o ≡ parts.slashed_says (quotes q) (built self.old) text.now) }
        ensures text { IfOk result (λ o. IfSome o (λ r. IsUtf8 r.now)) }
    {
        if starts_brace(text.as_bytes()) {
            self.say("\\")?;
            return self.braced(alloc, names, q, text);
        }
        self.escape(q, text)
    }

    // Takes the run of bytes that stand for themselves, and answers what is behind it.
    fn run<'a>(&mut self, q: Quotes, text: &'a str) -> Result<Option<&'a str>, AllocError>
        requires { IsTrue (kinds.is_quote q.mark) }
        ensures steps { IfOk result (λ o. option_map (λ r. (built self.new, r.now)) o ≡ parts.run_said (built self.old) (span (parts.is_run_byte (quotes q)) text.now)) }
        ensures text { IfOk result (λ o. IfSome o (λ r. IsUtf8 r.now)) }
    {
        let (front, behind) = run(q, text);
        if front.is_empty() {
            return Ok(None);
        }
        self.say(front)?;
        Ok(Some(behind))
    }

    // Takes the part at the front, and answers what is behind it.
    fn part<'a>(
        &mut self,
        alloc: Global,
        names: &mut Names,
        q: Quotes,
        text: &'a str,
    ) -> Result<Option<&'a str>, AllocError>
        requires { IsTrue (kinds.is_quote q.mark) }
        ensures steps { IfOk result (λ o. option_map (λ r. (built self.new, r.now)) o ≡ parts.part_says (quotes q) (built self.old) text.now) }
        ensures text { IfOk result (λ o. IfSome o (λ r. IsUtf8 r.now)) }
    {
        let [first, ..] = text.as_bytes() else {
            return Ok(None);
        };
        if starts_brace(text.as_bytes()) {
            return self.braced(alloc, names, q, text);
        }
        if *first == b'\\' {
            let (_slash, behind) = split_first(text);
            return self.slashed(alloc, names, q, behind);
        }
        self.run(q, text)
    }

    /// Takes the quotes and the part at the front, and answers what is behind them; none where no part is there.
    pub fn item<'a>(
        &mut self,
        alloc: Global,
        names: &mut Names,
        q: Quotes,
        text: &'a str,
    ) -> Result<Option<&'a str>, AllocError>
        requires { IsTrue (kinds.is_quote q.mark) }
        ensures steps { IfOk result (λ o. option_map (λ r. (built self.new, r.now)) o ≡ parts.item_says (quotes q) (built self.old) text.now) }
        ensures text { IfOk result (λ o. IfSome o (λ r. IsUtf8 r.now)) }
    {
        let (marks, behind) = split_lead(q, text);
        self.say(marks)?;
        self.part(alloc, names, q, behind)
    }

    // Takes the part of a text without fields, and answers what is behind it.
    fn text_part<'a>(&mut self, q: Quotes, text: &'a str) -> Result<Option<&'a str>, AllocError>
        requires { IsTrue (kinds.is_quote q.mark) }
        ensures steps { IfOk result (λ o. option_map (λ r. (built self.new, r.now)) o ≡ parts.text_part_says (quotes q) (built self.old) text.now) }
        ensures text { IfOk result (λ o. IfSome o (λ r. IsUtf8 r.now)) }
    {
        let [first, ..] = text.as_bytes() else {
            return Ok(None);
        };
        if *first == b'{' || *first == b'}' {
            let (brace, behind) = split_first(text);
            self.say(brace)?;
            return Ok(Some(behind));
        }
        if *first == b'\\' {
            let (_slash, behind) = split_first(text);
            return self.escape(q, behind);
        }
        self.run(q, text)
    }

    /// The same of a text without fields.
    pub fn text_item<'a>(&mut self, q: Quotes, text: &'a str) -> Result<Option<&'a str>, AllocError>
        requires { IsTrue (kinds.is_quote q.mark) }
        ensures steps { IfOk result (λ o. option_map (λ r. (built self.new, r.now)) o ≡ parts.text_item_says (quotes q) (built self.old) text.now) }
        ensures text { IfOk result (λ o. IfSome o (λ r. IsUtf8 r.now)) }
    {
        let (marks, behind) = split_lead(q, text);
        self.say(marks)?;
        self.text_part(q, behind)
    }
}
