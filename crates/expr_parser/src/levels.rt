// The levels of operators, from the loosest to the tightest (Python language reference, section 6.17).
ghost use Rattle.std.specs.Prelude.{◌≡◌, ◌+◌, ◌<◌, ◌≤◌, ◌^◌};
ghost use Rattle.py_tree.specs.ExprView.{view};
ghost use Rattle.syntax_reading.specs.Reading as reading;
ghost use Rattle.syntax_words.specs.TableView.{view_level, view_prefix};
ghost use Rattle.syntax_words.specs.WordView.{words_of};
ghost use Rattle.expr_parser.specs.Forms.{conditional, prefixed_operand};
ghost use Rattle.expr_parser.specs.Nests.{Nests};
ghost use Rattle.expr_parser.specs.Reads.{Reads, Within};

use crate::grammar::{Grammar, Reading};
use crate::part::Part;
use crate::simple::{binary, conditional, power, prefixed};
use std::alloc::{AllocError, Global};
use syntax_words::{Fixed, Level, Prefix, Words, after, first_operator, first_prefix};

impl<F: Fn(Global, Words, u32, Level) -> Result<Option<(Part, Words)>, AllocError>> Grammar<F> {
    /// An expression of any level: perhaps with `if` and `else` behind it.
    #[tactic(auto, unfolding(crate::specs::Unfolded::whole))]
    pub fn level_1<'a>(&self, words: Words<'a>) -> Reading<'a, Part>
        requires nests { Nests self.now.below (F.pre self.now.deeper) (F.post self.now.deeper) }
        requires small { self.now.below + 1 < 2 ^ 32 }
        ensures value { Reads (λ p. view p.expr) result (reading.level_1 (reading.read self.now.below) (self.now.below + 1) (words_of words.entry)) }
        ensures shallow { Within (λ p. p.depth) (self.now.below + 1) result }
    {
        let Some((value, rest)) = self.level_2(words)? else {
            return Ok(None);
        };
        let Some(rest) = after(Fixed::If, rest) else {
            return Ok(Some((value, rest)));
        };
        if value.depth > self.below {
            return Ok(None);
        }
        self.conditional(value, rest)
    }

    /// What stands behind `VALUE if`.
    fn conditional<'a>(&self, value: Part, words: Words<'a>) -> Reading<'a, Part>
        requires nests { Nests self.now.below (F.pre self.now.deeper) (F.post self.now.deeper) }
        requires small { self.now.below + 1 < 2 ^ 32 }
        requires shallow { value.depth ≤ self.now.below }
        ensures value { Reads (λ p. view p.expr) result (conditional (reading.read self.now.below) (view value.expr) (words_of words.entry)) }
        ensures shallow { Within (λ p. p.depth) (self.now.below + 1) result }
    {
        let Some((test, rest)) = self.inner(words, Level::E2)? else {
            return Ok(None);
        };
        let Some(rest) = after(Fixed::Else, rest) else {
            return Ok(None);
        };
        let Some((other, rest)) = self.inner(rest, Level::E1)? else {
            return Ok(None);
        };
        Ok(Some((conditional(self.alloc, value, test, other)?, rest)))
    }

    /// `or` between operands.
    #[tactic(auto, unfolding(crate::specs::Unfolded::operations))]
    pub fn level_2<'a>(&self, words: Words<'a>) -> Reading<'a, Part>
        requires nests { Nests self.now.below (F.pre self.now.deeper) (F.post self.now.deeper) }
        requires small { self.now.below + 1 < 2 ^ 32 }
        ensures value { Reads (λ p. view p.expr) result (reading.level_2 (reading.read self.now.below) (self.now.below + 1) (words_of words.entry)) }
        ensures shallow { Within (λ p. p.depth) (self.now.below + 1) result }
    {
        let Some((first, rest)) = self.level_3(words)? else {
            return Ok(None);
        };
        self.turns(Level::E2, first, rest)
    }

    /// `and` between operands.
    #[tactic(auto, unfolding(crate::specs::Unfolded::operations))]
    pub fn level_3<'a>(&self, words: Words<'a>) -> Reading<'a, Part>
        requires nests { Nests self.now.below (F.pre self.now.deeper) (F.post self.now.deeper) }
        requires small { self.now.below + 1 < 2 ^ 32 }
        ensures value { Reads (λ p. view p.expr) result (reading.level_3 (reading.read self.now.below) (self.now.below + 1) (words_of words.entry)) }
        ensures shallow { Within (λ p. p.depth) (self.now.below + 1) result }
    {
        let Some((first, rest)) = self.level_4(words)? else {
            return Ok(None);
        };
        self.turns(Level::E3, first, rest)
    }

    /// `not` before an operand.
    #[tactic(auto, unfolding(crate::specs::Unfolded::prefixes))]
    pub fn level_4<'a>(&self, words: Words<'a>) -> Reading<'a, Part>
        requires nests { Nests self.now.below (F.pre self.now.deeper) (F.post self.now.deeper) }
        requires small { self.now.below + 1 < 2 ^ 32 }
        ensures value { Reads (λ p. view p.expr) result (reading.level_4 (reading.read self.now.below) (self.now.below + 1) (words_of words.entry)) }
        ensures shallow { Within (λ p. p.depth) (self.now.below + 1) result }
    {
        let Some((prefix, rest)) = first_prefix(Level::E4, words) else {
            return self.level_5(words);
        };
        self.prefixed(prefix, Level::E4, rest)
    }

    /// `+` and `-` between operands.
    #[tactic(auto, unfolding(crate::specs::Unfolded::operations))]
    pub fn level_6<'a>(&self, words: Words<'a>) -> Reading<'a, Part>
        requires nests { Nests self.now.below (F.pre self.now.deeper) (F.post self.now.deeper) }
        requires small { self.now.below + 1 < 2 ^ 32 }
        ensures value { Reads (λ p. view p.expr) result (reading.level_6 (reading.read self.now.below) (self.now.below + 1) (words_of words.entry)) }
        ensures shallow { Within (λ p. p.depth) (self.now.below + 1) result }
    {
        let Some((first, rest)) = self.level_7(words)? else {
            return Ok(None);
        };
        self.turns(Level::E6, first, rest)
    }

    /// `*`, `//` and `%` between operands.
    #[tactic(auto, unfolding(crate::specs::Unfolded::operations))]
    pub fn level_7<'a>(&self, words: Words<'a>) -> Reading<'a, Part>
        requires nests { Nests self.now.below (F.pre self.now.deeper) (F.post self.now.deeper) }
        requires small { self.now.below + 1 < 2 ^ 32 }
        ensures value { Reads (λ p. view p.expr) result (reading.level_7 (reading.read self.now.below) (self.now.below + 1) (words_of words.entry)) }
        ensures shallow { Within (λ p. p.depth) (self.now.below + 1) result }
    {
        let Some((first, rest)) = self.level_8(words)? else {
            return Ok(None);
        };
        self.turns(Level::E7, first, rest)
    }

    /// `-` and `+` before an operand.
    #[tactic(auto, unfolding(crate::specs::Unfolded::prefixes))]
    pub fn level_8<'a>(&self, words: Words<'a>) -> Reading<'a, Part>
        requires nests { Nests self.now.below (F.pre self.now.deeper) (F.post self.now.deeper) }
        requires small { self.now.below + 1 < 2 ^ 32 }
        ensures value { Reads (λ p. view p.expr) result (reading.level_8 (reading.read self.now.below) (self.now.below + 1) (words_of words.entry)) }
        ensures shallow { Within (λ p. p.depth) (self.now.below + 1) result }
    {
        let Some((prefix, rest)) = first_prefix(Level::E8, words) else {
            return self.powers(words);
        };
        self.prefixed(prefix, Level::E8, rest)
    }

    /// The operand of an operator that stands before it.
    fn prefixed<'a>(&self, prefix: Prefix, level: Level, words: Words<'a>) -> Reading<'a, Part>
        requires nests { Nests self.now.below (F.pre self.now.deeper) (F.post self.now.deeper) }
        requires small { self.now.below + 1 < 2 ^ 32 }
        ensures value { Reads (λ p. view p.expr) result
            (prefixed_operand (reading.read self.now.below (view_level level)) (view_prefix prefix) (words_of words.entry)) }
        ensures shallow { Within (λ p. p.depth) (self.now.below + 1) result }
    {
        let Some((operand, rest)) = self.inner(words, level)? else {
            return Ok(None);
        };
        Ok(Some((prefixed(self.alloc, prefix, operand)?, rest)))
    }

    /// `**` behind its base, and the exponent.
    #[tactic(auto, unfolding(crate::specs::Unfolded::powers))]
    pub fn powers<'a>(&self, words: Words<'a>) -> Reading<'a, Part>
        requires nests { Nests self.now.below (F.pre self.now.deeper) (F.post self.now.deeper) }
        requires small { self.now.below + 1 < 2 ^ 32 }
        ensures value { Reads (λ p. view p.expr) result (reading.powers (reading.read self.now.below) (self.now.below + 1) (words_of words.entry)) }
        ensures shallow { Within (λ p. p.depth) (self.now.below + 1) result }
    {
        let Some((base, rest)) = self.postfix(words)? else {
            return Ok(None);
        };
        let Some(rest) = after(Fixed::Stars, rest) else {
            return Ok(Some((base, rest)));
        };
        if base.depth > self.below {
            return Ok(None);
        }
        let Some((exponent, rest)) = self.inner(rest, Level::E8)? else {
            return Ok(None);
        };
        Ok(Some((power(self.alloc, base, exponent)?, rest)))
    }

    /// Operators of a level with their right operands, behind a first operand.
    #[tactic(auto, unfolding(crate::specs::Unfolded::turns))]
    fn turns<'a>(&self, level: Level, first: Part, words: Words<'a>) -> Reading<'a, Part>
        requires nests { Nests self.now.below (F.pre self.now.deeper) (F.post self.now.deeper) }
        requires small { self.now.below + 1 < 2 ^ 32 }
        requires shallow { first.depth ≤ self.now.below + 1 }
        ensures value { Reads (λ p. view p.expr) result
            (reading.turns (reading.read self.now.below) (self.now.below + 1) (view_level level) (self.now.below + 1) (view first.expr)
            (words_of words.entry)) }
        ensures shallow { Within (λ p. p.depth) (self.now.below + 1) result }
    {
        let mut part = first;
        let mut rest = words;
        for _turn in 0..self.below + 1 {
            let Some((operator, after)) = first_operator(level, rest) else {
                return Ok(Some((part, rest)));
            };
            if part.depth > self.below {
                return Ok(None);
            }
            let Some((right, after)) = self.inner(after, level.deeper())? else {
                return Ok(None);
            };
            part = binary(self.alloc, operator, part, right)?;
            rest = after;
        }
        Ok(None)
    }
}
