// Expressions of one depth, over a reader of what lies deeper; and the reader itself.
ghost use Rattle.std.specs.Prelude.{◌≡◌, ◌+◌, ◌<◌, ◌≤◌, ◌^◌};
ghost use Rattle.py_tree.specs.ExprView.{view};
ghost use Rattle.syntax_reading.specs.Reading as reading;
ghost use Rattle.syntax_words.specs.TableView.{view_level};
ghost use Rattle.syntax_words.specs.WordView.{words_of};
ghost use Rattle.expr_parser.specs.Nests.{Nests};
ghost use Rattle.expr_parser.specs.Reads.{Reads, Within};

use crate::part::Part;
use std::alloc::{AllocError, Global};
use syntax_words::{Level, Words};

/// What was read, and the words behind it; None where the words begin nothing of the kind.
pub type Reading<'a, T> = Result<Option<(T, Words<'a>)>, AllocError>;

/// An expression of at most this depth, at this level or a tighter one.
pub fn read<'a>(
    alloc: Global,
    words: Words<'a>,
    room: u32,
    level: Level,
) -> Result<Option<(Part, Words<'a>)>, AllocError>
    ensures value { Reads (λ p. view p.expr) result (reading.read room (view_level level) (words_of words.entry)) }
    ensures shallow { Within (λ p. p.depth) room result }
{
    if room == 0 {
        return Ok(None);
    }
    Grammar {
        alloc,
        below: room - 1,
        deeper: read,
    }
    .at_level(words, level)
}

/// The forms of one depth, over a reader of what lies deeper: so each is proved by itself.
#[derive(Clone, Copy)]
pub struct Grammar<F> {
    pub alloc: Global,
    /// How deep what lies deeper may be.
    pub below: u32,
    pub deeper: F,
}

impl<F: Fn(Global, Words, u32, Level) -> Result<Option<(Part, Words)>, AllocError>> Grammar<F> {
    /// An expression that lies deeper.
    pub fn inner<'a>(&self, words: Words<'a>, level: Level) -> Reading<'a, Part>
        requires { Nests self.now.below (F.pre self.now.deeper) (F.post self.now.deeper) }
        ensures value { Reads (λ p. view p.expr) result (reading.read self.now.below (view_level level) (words_of words.entry)) }
        ensures shallow { Within (λ p. p.depth) self.now.below result }
    {
        (self.deeper)(self.alloc, words, self.below, level)
    }

    /// An expression of this depth or a lesser one, at this level or a tighter one.
    fn at_level<'a>(&self, words: Words<'a>, level: Level) -> Reading<'a, Part>
        requires nests { Nests self.now.below (F.pre self.now.deeper) (F.post self.now.deeper) }
        requires small { self.now.below + 1 < 2 ^ 32 }
        ensures value { Reads (λ p. view p.expr) result
            (reading.at_level (reading.read self.now.below) (self.now.below + 1) (view_level level) (words_of words.entry)) }
        ensures shallow { Within (λ p. p.depth) (self.now.below + 1) result }
    {
        match level {
            Level::E1 => self.level_1(words),
            Level::E2 => self.level_2(words),
            Level::E3 => self.level_3(words),
            Level::E4 => self.level_4(words),
            Level::E6 => self.level_6(words),
            Level::E7 => self.level_7(words),
            Level::E8 => self.level_8(words),
        }
    }
}
