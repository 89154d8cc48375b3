// What goes on behind an operand (Python language reference, section 6.3).
ghost use Rattle.std.specs.Prelude.{◌≡◌, ◌+◌, ◌<◌, ◌≤◌, ◌^◌};
ghost use Rattle.py_tree.specs.ExprView.{view};
ghost use Rattle.syntax_reading.specs.Reading as reading;
ghost use Rattle.syntax_reading.specs.Tables.{E1};
ghost use Rattle.syntax_words.specs.TableView.{view_tail};
ghost use Rattle.syntax_words.specs.WordView.{words_of};
ghost use Rattle.expr_parser.specs.BoundView.{bound};
ghost use Rattle.expr_parser.specs.Nests.{Nests};
ghost use Rattle.expr_parser.specs.Reads.{Reads, Within};

use crate::bound::Bound;
use crate::counts::turns_for;
use crate::grammar::{Grammar, Reading};
use crate::listed::call;
use crate::lists::Arguments;
use crate::part::Part;
use crate::simple::{attribute, index, slice};
use std::alloc::{AllocError, Global};
use syntax_words::{Fixed, Level, Tail, Words, after, first_name, first_tail};

impl<F: Fn(Global, Words, u32, Level) -> Result<Option<(Part, Words)>, AllocError>> Grammar<F> {
    /// An atom: perhaps with calls, indexes, slices and attributes behind it.
    #[tactic(auto, unfolding(crate::specs::Unfolded::postfix))]
    pub fn postfix<'a>(&self, words: Words<'a>) -> Reading<'a, Part>
        requires nests { Nests self.now.below (F.pre self.now.deeper) (F.post self.now.deeper) }
        requires small { self.now.below + 1 < 2 ^ 32 }
        ensures value { Reads (λ p. view p.expr) result (reading.postfix (reading.read self.now.below) (self.now.below + 1) (words_of words.entry)) }
        ensures shallow { Within (λ p. p.depth) (self.now.below + 1) result }
    {
        let Some((first, rest)) = self.atom(words)? else {
            return Ok(None);
        };
        self.tails(first, rest)
    }

    /// Calls, indexes, slices and attributes behind an operand.
    #[tactic(auto, unfolding(crate::specs::Unfolded::tails))]
    fn tails<'a>(&self, first: Part, words: Words<'a>) -> Reading<'a, Part>
        requires nests { Nests self.now.below (F.pre self.now.deeper) (F.post self.now.deeper) }
        requires small { self.now.below + 1 < 2 ^ 32 }
        requires shallow { first.depth ≤ self.now.below + 1 }
        ensures value { Reads (λ p. view p.expr) result
            (reading.tails (reading.read self.now.below) (self.now.below + 1) (self.now.below + 1) (view first.expr) (words_of words.entry)) }
        ensures shallow { Within (λ p. p.depth) (self.now.below + 1) result }
    {
        let mut part = first;
        let mut rest = words;
        for _turn in 0..self.below + 1 {
            let Some((tail, after)) = first_tail(rest) else {
                return Ok(Some((part, rest)));
            };
            if part.depth > self.below {
                return Ok(None);
            }
            let Some((longer, after)) = self.tailed(part, tail, after)? else {
                return Ok(None);
            };
            part = longer;
            rest = after;
        }
        Ok(None)
    }

    /// The expression with one call, index, slice or attribute more.
    #[tactic(auto, unfolding(crate::specs::Unfolded::tailed))]
    fn tailed<'a>(&self, of: Part, tail: Tail, words: Words<'a>) -> Reading<'a, Part>
        requires nests { Nests self.now.below (F.pre self.now.deeper) (F.post self.now.deeper) }
        requires small { self.now.below + 1 < 2 ^ 32 }
        requires shallow { of.depth ≤ self.now.below }
        ensures value { Reads (λ p. view p.expr) result
            (reading.tailed (reading.read self.now.below) (self.now.below + 1) (view of.expr) (view_tail tail) (words_of words.entry)) }
        ensures shallow { Within (λ p. p.depth) (self.now.below + 1) result }
    {
        match tail {
            Tail::Call => self.called(of, words),
            Tail::Index => self.indexed(of, words),
            Tail::Attribute => {
                let Some((name, rest)) = first_name(words) else {
                    return Ok(None);
                };
                Ok(Some((attribute(self.alloc, of, name)?, rest)))
            }
        }
    }

    /// What stands behind `CALLEE(`.
    fn called<'a>(&self, callee: Part, words: Words<'a>) -> Reading<'a, Part>
        requires nests { Nests self.now.below (F.pre self.now.deeper) (F.post self.now.deeper) }
        requires small { self.now.below + 1 < 2 ^ 32 }
        requires shallow { callee.depth ≤ self.now.below }
        ensures value { Reads (λ p. view p.expr) result
            (reading.called (reading.read self.now.below) (self.now.below + 1) (view callee.expr) (words_of words.entry)) }
        ensures shallow { Within (λ p. p.depth) (self.now.below + 1) result }
    {
        let none = Arguments::new(self.alloc);
        let Some(((arguments, comma), rest)) = self.arguments(turns_for(words), none, words)? else {
            return Ok(None);
        };
        if !arguments.named_last() {
            return Ok(None);
        }
        Ok(Some((call(self.alloc, callee, arguments, comma)?, rest)))
    }

    /// What stands behind `BASE[`.
    fn indexed<'a>(&self, base: Part, words: Words<'a>) -> Reading<'a, Part>
        requires nests { Nests self.now.below (F.pre self.now.deeper) (F.post self.now.deeper) }
        requires small { self.now.below + 1 < 2 ^ 32 }
        requires shallow { base.depth ≤ self.now.below }
        ensures value { Reads (λ p. view p.expr) result
            (reading.indexed (reading.read self.now.below) (self.now.below + 1) (view base.expr) (words_of words.entry)) }
        ensures shallow { Within (λ p. p.depth) (self.now.below + 1) result }
    {
        if let Some(rest) = after(Fixed::Colon, words) {
            return self.slice_end(base, Bound::left_out(), rest);
        }
        let Some((position, rest)) = self.inner(words, Level::E1)? else {
            return Ok(None);
        };
        if let Some(rest) = after(Fixed::Colon, rest) {
            return self.slice_end(base, Bound::at(position), rest);
        }
        let Some(rest) = after(Fixed::SquareClose, rest) else {
            return Ok(None);
        };
        Ok(Some((index(self.alloc, base, position)?, rest)))
    }

    /// What stands behind `BASE[FROM:`.
    fn slice_end<'a>(&self, base: Part, from: Bound, words: Words<'a>) -> Reading<'a, Part>
        requires nests { Nests self.now.below (F.pre self.now.deeper) (F.post self.now.deeper) }
        requires small { self.now.below + 1 < 2 ^ 32 }
        requires shallow { base.depth ≤ self.now.below }
        requires from { from.depth ≤ self.now.below }
        ensures value { Reads (λ p. view p.expr) result
            (reading.slice_end (reading.read self.now.below) (self.now.below + 1) (view base.expr) (bound from.expr) (words_of words.entry)) }
        ensures shallow { Within (λ p. p.depth) (self.now.below + 1) result }
    {
        if let Some(rest) = after(Fixed::SquareClose, words) {
            return Ok(Some((slice(self.alloc, base, from, Bound::left_out())?, rest)));
        }
        let Some((until, rest)) = self.inner(words, Level::E1)? else {
            return Ok(None);
        };
        let Some(rest) = after(Fixed::SquareClose, rest) else {
            return Ok(None);
        };
        Ok(Some((slice(self.alloc, base, from, Bound::at(until))?, rest)))
    }
}
