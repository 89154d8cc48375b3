// What begins an operand.
ghost use Rattle.std.specs.Prelude.{◌≡◌};
ghost use Rattle.syntax_words.specs.AtomView.{view_atom};
ghost use Rattle.syntax_words.specs.Beginnings as beginnings;
ghost use Rattle.syntax_words.specs.WordView.{words_of, found};

use crate::sense::Sense;
use crate::tables::{Bracket, bracket_of};
use crate::word::Words;
use py_tokens::Pieces;
use py_tree::{Spelling, TokenKind};

/// What an operand begins with.
#[derive(Clone, Copy, Debug)]
pub enum Atom<'a> {
    /// A name that is no keyword.
    Name(&'a Spelling),
    /// `None`, `True`, `False`, a number or a text.
    Literal(TokenKind, &'a Spelling),
    /// A text with fields.
    FText(&'a Spelling, &'a Pieces),
    /// An opening bracket.
    Bracket(Bracket),
}

/// What an operand begins with.
pub fn first_atom<'a>(words: Words<'a>) -> Option<(Atom<'a>, Words<'a>)>
    ensures { found view_atom result ≡ beginnings.first_atom (words_of words.entry) }
{
    let [word, rest @ ..] = words.words else {
        return None;
    };
    let rest = Words { words: rest };
    match word.sense {
        Sense::Name(name) => Some((Atom::Name(name), rest)),
        Sense::Literal(kind, spelling) => Some((Atom::Literal(kind, spelling), rest)),
        Sense::FText(spelling, pieces) => Some((Atom::FText(spelling, pieces), rest)),
        Sense::Fixed(fixed) => Some((Atom::Bracket(bracket_of(fixed)?), rest)),
        Sense::Other(_) => None,
    }
}
