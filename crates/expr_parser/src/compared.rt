// Comparisons (Python language reference, section 6.10).
ghost use Rattle.std.specs.Prelude.{◌≡◌, ◌+◌, ◌<◌, ◌≤◌, ◌^◌, []};
ghost use Rattle.py_tree.specs.ExprView.{view};
ghost use Rattle.syntax_reading.specs.Items.{each};
ghost use Rattle.syntax_reading.specs.Parts as parts;
ghost use Rattle.syntax_reading.specs.Reading as reading;
ghost use Rattle.syntax_reading.specs.Tables.{E6};
ghost use Rattle.syntax_words.specs.WordView.{words_of};
ghost use Rattle.expr_parser.specs.Forms.{linked, is_tail, none_behind};
ghost use Rattle.expr_parser.specs.ListView.{seen_links};
ghost use Rattle.expr_parser.specs.Nests.{Nests};
ghost use Rattle.expr_parser.specs.Reads.{Reads, Within};

use crate::counts::{is_some, turns_for};
use crate::grammar::{Grammar, Reading};
use crate::listed::chain;
use crate::lists::Links;
use crate::part::Part;
use crate::simple::is_none;
use std::alloc::{AllocError, Global};
use syntax_words::{Fixed, Level, Words, after, after_none, first_comparison};

impl<F: Fn(Global, Words, u32, Level) -> Result<Option<(Part, Words)>, AllocError>> Grammar<F> {
    /// An operand: perhaps with comparisons, or with `is None`, behind it.
    #[tactic(auto, unfolding(crate::specs::Unfolded::compared))]
    pub fn level_5<'a>(&self, words: Words<'a>) -> Reading<'a, Part>
        requires nests { Nests self.now.below (F.pre self.now.deeper) (F.post self.now.deeper) }
        requires small { self.now.below + 1 < 2 ^ 32 }
        ensures value { Reads (λ p. view p.expr) result (reading.level_5 (reading.read self.now.below) (self.now.below + 1) (words_of words.entry)) }
        ensures shallow { Within (λ p. p.depth) (self.now.below + 1) result }
    {
        let Some((first, rest)) = self.level_6(words)? else {
            return Ok(None);
        };
        let Some(behind) = after(Fixed::Is, rest) else {
            return self.chained(first, rest);
        };
        if first.depth > self.below {
            return Ok(None);
        }
        is_tail(self.alloc, first, behind)
    }

    /// Comparisons behind a first operand, if there are any.
    fn chained<'a>(&self, first: Part, words: Words<'a>) -> Reading<'a, Part>
        requires nests { Nests self.now.below (F.pre self.now.deeper) (F.post self.now.deeper) }
        requires small { self.now.below + 1 < 2 ^ 32 }
        requires shallow { first.depth ≤ self.now.below + 1 }
        ensures value { Reads (λ p. view p.expr) result
            (linked (reading.read self.now.below) (self.now.below + 1) (view first.expr) (words_of words.entry)) }
        ensures shallow { Within (λ p. p.depth) (self.now.below + 1) result }
    {
        let Some((links, rest)) = self.links(turns_for(words), words)? else {
            return Ok(None);
        };
        if !is_some(&links.items) {
            return Ok(Some((first, rest)));
        }
        if first.depth > self.below {
            return Ok(None);
        }
        Ok(Some((chain(self.alloc, first, links)?, rest)))
    }

    /// Comparisons with the operands behind them.
    #[tactic(auto, unfolding(crate::specs::Unfolded::each))]
    fn links<'a>(&self, turns: usize, words: Words<'a>) -> Reading<'a, Links>
        requires nests { Nests self.now.below (F.pre self.now.deeper) (F.post self.now.deeper) }
        ensures value { Reads (λ ls. seen_links ls.items.items) result
            (each parts.first_comparison (reading.read self.now.below E6) turns [] (words_of words.entry)) }
        ensures shallow { Within (λ ls. ls.depth) self.now.below result }
    {
        let mut found = Links::new(self.alloc);
        let mut rest = words;
        for _turn in 0..turns {
            let Some((comparison, after)) = first_comparison(rest) else {
                return Ok(Some((found, rest)));
            };
            let Some((operand, after)) = self.inner(after, Level::E6)? else {
                return Ok(None);
            };
            found = found.with(comparison, operand)?;
            rest = after;
        }
        Ok(None)
    }
}

/// What stands behind `OPERAND is`: `None`, or `not None`.
fn is_tail<'a>(alloc: Global, operand: Part, words: Words<'a>) -> Reading<'a, Part>
    requires { operand.depth + 1 < 2 ^ 32 }
    ensures value { Reads (λ p. view p.expr) result (is_tail (view operand.expr) (words_of words.entry)) }
    ensures shallow { Within (λ p. p.depth) (operand.depth + 1) result }
{
    if let Some(rest) = after(Fixed::Not, words) {
        return none_behind(alloc, true, operand, rest);
    }
    none_behind(alloc, false, operand, words)
}

#[tactic(auto, using(syntax_words::proofs::Beginnings::on_none_by_first))]
fn none_behind<'a>(
    alloc: Global,
    negated: bool,
    operand: Part,
    words: Words<'a>,
) -> Reading<'a, Part>
    requires { operand.depth + 1 < 2 ^ 32 }
    ensures value { Reads (λ p. view p.expr) result (none_behind negated (view operand.expr) (words_of words.entry)) }
    ensures shallow { Within (λ p. p.depth) (operand.depth + 1) result }
{
    let Some(rest) = after_none(words) else {
        return Ok(None);
    };
    Ok(Some((is_none(alloc, negated, operand)?, rest)))
}
