// Expressions behind which nothing stands.
ghost use Rattle.std.specs.Prelude.{◌≡◌, option_map, IfSome};
ghost use Rattle.py_tree.specs.ExprView.{view};
ghost use Rattle.syntax_reading.specs.Reading.{nothing_left};
ghost use Rattle.syntax_words.specs.WordView.{words_of};

use crate::part::Part;
use syntax_words::Words;

/// The expression, where no word is left behind it.
pub fn alone(part: Part, rest: Words<'_>) -> Option<Part>
    ensures value { option_map (λ p. view p.expr) result ≡ nothing_left (view part.expr) (words_of rest.entry) }
    ensures shallow { IfSome result (λ p. p.depth ≡ part.depth) }
{
    match rest.words {
        [] => Some(part),
        _ => None,
    }
}
