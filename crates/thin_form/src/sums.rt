// Sums.
ghost use Rattle.std.specs.Prelude.{◌≡◌, IfOk, option_map};
ghost use Rattle.thin_form.specs.SliderNames.{as_elements};
ghost use Rattle.thin_form.specs.Sums as reading;
ghost use Rattle.thin_form.specs.Words.{words, words_left};
ghost use Rattle.py_tree.specs.View.{view};

use crate::slider_names::SliderNames;
use crate::trees;
use crate::words::{next_word, without_back};
use py_tree::{Expr, is_name, number};
use py_value::Memory;
use sqlite_items::Boxed;
use std::alloc::Global;

const MAX_TERMS: u32 = 32;

// The sum that the text spells: at most `MAX_TERMS` terms, each but the first behind ` + `.
pub fn read_sum(
    alloc: Global,
    text: &str,
    elements: &SliderNames,
) -> Result<Option<Boxed<Expr>>, Memory>
    ensures { IfOk result
        (λ o. option_map view o ≡ reading.read_sum (as_elements elements.now) (words text.now)) }
{
    let (first, mut rest) = next_word(text);
    let Some(mut tree) = read_term(alloc, first, elements)? else {
        return Ok(None);
    };
    for _terms in 1..MAX_TERMS {
        let Some(text) = rest else {
            return Ok(Some(tree));
        };
        let Some((longer, after)) = with_term(alloc, tree, text, elements)? else {
            return Ok(None);
        };
        tree = longer;
        rest = after;
    }
    match rest {
        None => Ok(Some(tree)),
        Some(_) => Ok(None),
    }
}

// The tree with the term that the text begins with behind `+ `, and the text after it.
fn with_term<'a>(
    alloc: Global,
    tree: Boxed<Expr>,
    text: &'a str,
    elements: &SliderNames,
) -> Result<Option<(Boxed<Expr>, Option<&'a str>)>, Memory>
    ensures { IfOk result
        (λ o. option_map (λ p. (view p.0, words_left (option_map (λ t. t.now) p.1))) o
        ≡ reading.one_more (as_elements elements.now) (view tree) (words text.now)) }
{
    let Some((word, after)) = next_term(text) else {
        return Ok(None);
    };
    let Some(right) = read_term(alloc, word, elements)? else {
        return Ok(None);
    };
    Ok(Some((trees::sum(alloc, tree, right)?, after)))
}

// The word after `+ `, and the text after it.
fn next_term(text: &str) -> Option<(&str, Option<&str>)>
    ensures { option_map (λ p. (p.0.now, words_left (option_map (λ t. t.now) p.1))) result
        ≡ reading.next_term (words text.now) }
{
    match next_word(text) {
        ("+", Some(rest)) => Some(next_word(rest)),
        _ => None,
    }
}

// The name, the number or the value of a slider that the word is.
fn read_term(
    alloc: Global,
    word: &str,
    elements: &SliderNames,
) -> Result<Option<Boxed<Expr>>, Memory>
    ensures { IfOk result
        (λ o. option_map view o ≡ reading.read_term (as_elements elements.now) word.now) }
{
    if is_name(word) {
        if elements.is_slider(word) {
            return Ok(None);
        }
        return Ok(Some(trees::name(alloc, word)?));
    }
    if number(word).is_some() {
        return Ok(Some(trees::numeral(alloc, word)?));
    }
    read_value(alloc, word, elements)
}

// `NAME.value`, where the word is this and the name is that of a slider.
fn read_value(
    alloc: Global,
    word: &str,
    elements: &SliderNames,
) -> Result<Option<Boxed<Expr>>, Memory>
    ensures { IfOk result
        (λ o. option_map view o ≡ reading.read_value (as_elements elements.now) word.now) }
{
    let Some(slider) = without_back(word, ".value") else {
        return Ok(None);
    };
    if !is_name(slider) || !elements.is_slider(slider) {
        return Ok(None);
    }
    let name = trees::name(alloc, slider)?;
    Ok(Some(trees::attribute(alloc, name, "value")?))
}
