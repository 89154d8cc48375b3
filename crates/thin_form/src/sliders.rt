// The slider that a line makes: its name and its bounds.
ghost use Rattle.std.specs.Prelude.{◌≡◌, ℕ, List, ◌++◌, codes, option_map, MatchOption};
ghost use Rattle.std.specs.Str.{IsUtf8};
ghost use Rattle.thin_form.specs.Sliders as reading;
ghost use Rattle.thin_form.specs.Words.{words};

use crate::words::{target, two_words, without_back, without_front};
use py_tree::{is_name, number};
use std::str;

// The name to which a whole line, of any bytes, with its indent, assigns a slider.
pub fn slider_in(line: &[u8]) -> Option<&str>
    ensures { option_map (λ t. t.now) result ≡ reading.slider_in line.now }
{
    let text = indented_text(line)?;
    slider_name(text)
}

// The bounds that `mo.ui.slider(LOW, HIGH)` names.
pub fn read_bounds(text: &str) -> Option<(&str, &str)>
    ensures { option_map (λ p. record { low = p.0.now; high = p.1.now }) result
        ≡ reading.read_bounds (words text.now) }
{
    let (first, second) = two_words(text)?;
    bounds_in(first, second)
}

// The name to which the text of a line assigns a slider.
fn slider_name(text: &str) -> Option<&str>
    ensures { option_map (λ t. t.now) result ≡ reading.slider_name text.now }
{
    let (name, value) = target(text)?;
    if !is_name(name) {
        return None;
    }
    read_bounds(value)?;
    Some(name)
}

// The text behind four spaces.
fn indented_text(line: &[u8]) -> Option<&str>
    ensures { MatchOption result
        ((text : List ℕ) → line.now ≡ codes "    " ++ text → IsUtf8 text → ⊥)
        (λ text. line.now ≡ codes "    " ++ text.now) }
{
    str::from_utf8(line.strip_prefix(b"    ")?).ok()
}

// The bounds in the two words of `mo.ui.slider(LOW, HIGH)`.
fn bounds_in<'a>(first: &'a str, second: &'a str) -> Option<(&'a str, &'a str)>
    ensures { option_map (λ p. record { low = p.0.now; high = p.1.now }) result
        ≡ reading.bounds_in first.now second.now }
{
    let low = without_back(without_front(first, "mo.ui.slider(")?, ",")?;
    let high = without_back(second, ")")?;
    if are_bounds(low, high) {
        Some((low, high))
    } else {
        None
    }
}

// Whether both are numbers, of which the first isn't the greater.
#[tactic(auto, unfolding(crate::specs::Sliders::are_bounds))]
fn are_bounds(low: &str, high: &str) -> bool
    ensures { result ≡ reading.are_bounds low.now high.now }
{
    match (number(low), number(high)) {
        (Some(low), Some(high)) => low <= high,
        _ => false,
    }
}
