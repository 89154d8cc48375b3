// Atoms: names, literals, f-texts and what stands in brackets (Python language reference, section 6.2).
ghost use Rattle.std.specs.Prelude.{◌≡◌, ◌+◌, ◌<◌, ◌≤◌, ◌^◌, IfOk, IfSome, option_map};
ghost use Rattle.py_tokens.specs.TokenView.{view_piece, view_piece_list, view_pieces, view_tokens};
ghost use Rattle.py_tree.specs.ExprView.{view};
ghost use Rattle.py_tree.specs.Expressions.{no_piece};
ghost use Rattle.syntax_reading.specs.Reading as reading;
ghost use Rattle.syntax_reading.specs.Tables.{E1};
ghost use Rattle.syntax_words.specs.WordView.{words_of};
ghost use Rattle.expr_parser.specs.Forms.{field_tree, with_piece};
ghost use Rattle.expr_parser.specs.Nests.{Nests};
ghost use Rattle.expr_parser.specs.Reads.{Reads, Within};
ghost use Rattle.expr_parser.specs.TextView.{seen_texts, put_all};

use crate::alone::alone;
use crate::grammar::{Grammar, Reading};
use crate::listed::f_text;
use crate::part::Part;
use crate::simple::{copy, literal, name};
use crate::texts::Texts;
use py_tokens::{Piece, Pieces, Tokens};
use py_tree::Spelling;
use std::alloc::{AllocError, Global};
use syntax_words::{Atom, Level, Words, first_atom, words};

impl<F: Fn(Global, Words, u32, Level) -> Result<Option<(Part, Words)>, AllocError>> Grammar<F> {
    /// A name, a literal, an f-text, or what stands in brackets.
    #[tactic(auto, unfolding(crate::specs::Unfolded::atom))]
    pub fn atom<'a>(&self, words: Words<'a>) -> Reading<'a, Part>
        requires nests { Nests self.now.below (F.pre self.now.deeper) (F.post self.now.deeper) }
        requires small { self.now.below + 1 < 2 ^ 32 }
        ensures value { Reads (λ p. view p.expr) result (reading.atom (reading.read self.now.below) (self.now.below + 1) (words_of words.entry)) }
        ensures shallow { Within (λ p. p.depth) (self.now.below + 1) result }
    {
        let Some((atom, rest)) = first_atom(words) else {
            return Ok(None);
        };
        match atom {
            Atom::Name(spelling) => Ok(Some((name(self.alloc, spelling)?, rest))),
            Atom::Literal(kind, spelling) => Ok(Some((literal(self.alloc, kind, spelling)?, rest))),
            Atom::FText(spelling, pieces) => self.f_text(spelling, pieces, rest),
            Atom::Bracket(bracket) => self.bracketed(bracket, rest),
        }
    }

    /// A text with fields, whose expressions are read.
    fn f_text<'a>(
        &self,
        spelling: &Spelling,
        pieces: &Pieces,
        words: Words<'a>,
    ) -> Reading<'a, Part>
        requires nests { Nests self.now.below (F.pre self.now.deeper) (F.post self.now.deeper) }
        requires small { self.now.below + 1 < 2 ^ 32 }
        ensures value { Reads (λ p. view p.expr) result
            (reading.with_parts (reading.read self.now.below) (self.now.below + 1) spelling.now (words_of words.entry)
            (reading.parts (reading.read self.now.below) (self.now.below + 1) (view_pieces pieces.now))) }
        ensures shallow { Within (λ p. p.depth) (self.now.below + 1) result }
    {
        let Some(texts) = self.pieces(pieces.items())? else {
            return Ok(None);
        };
        Ok(Some((f_text(self.alloc, spelling, texts)?, words)))
    }

    /// The pieces of an f-text, with the expressions of its fields; None where a field isn't one.
    #[tactic(auto, unfolding(crate::specs::Unfolded::parts))]
    fn pieces(&self, pieces: &[Piece]) -> Result<Option<Texts>, AllocError>
        requires nests { Nests self.now.below (F.pre self.now.deeper) (F.post self.now.deeper) }
        ensures value { IfOk result (λ o. option_map (λ ts. put_all (seen_texts ts.items.items) no_piece) o
            ≡ reading.parts (reading.read self.now.below) (self.now.below + 1) (view_piece_list pieces.now)) }
        ensures shallow { IfOk result (λ o. IfSome o (λ ts. ts.depth ≤ self.now.below)) }
    {
        let mut found = Texts::new(self.alloc);
        for piece in pieces {
            let Some(longer) = self.with_piece(found, piece)? else {
                return Ok(None);
            };
            found = longer;
        }
        Ok(Some(found))
    }

    /// These pieces with one more behind them; None where it is a field, and no expression.
    fn with_piece(&self, before: Texts, piece: &Piece) -> Result<Option<Texts>, AllocError>
        requires nests { Nests self.now.below (F.pre self.now.deeper) (F.post self.now.deeper) }
        requires shallow { before.depth ≤ self.now.below }
        ensures value { IfOk result (λ o. option_map (λ ts. seen_texts ts.items.items) o
            ≡ with_piece (reading.read self.now.below E1) (seen_texts before.items.items) (view_piece piece.now)) }
        ensures shallow { IfOk result (λ o. IfSome o (λ ts. ts.depth ≤ self.now.below)) }
    {
        match piece {
            Piece::Chars(spelling) => Ok(Some(before.with_characters(copy(
                self.alloc, spelling,
            )?)?)),
            Piece::Field {
                tokens,
                convert,
                spec,
            } => {
                let Some(value) = self.field(tokens)? else {
                    return Ok(None);
                };
                Ok(Some(before.with_field(value, *convert, *spec)?))
            }
        }
    }

    /// The expression that all these tokens are.
    fn field(&self, tokens: &Tokens) -> Result<Option<Part>, AllocError>
        requires nests { Nests self.now.below (F.pre self.now.deeper) (F.post self.now.deeper) }
        ensures value { IfOk result (λ o. option_map (λ p. view p.expr) o ≡ field_tree (reading.read self.now.below E1) (view_tokens tokens.now)) }
        ensures shallow { IfOk result (λ o. IfSome o (λ p. p.depth ≤ self.now.below)) }
    {
        let list = words(self.alloc, tokens.items())?;
        let words = Words {
            words: list.as_slice(),
        };
        let Some((part, rest)) = self.inner(words, Level::E1)? else {
            return Ok(None);
        };
        Ok(alone(part, rest))
    }
}
