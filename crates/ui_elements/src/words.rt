// Whether arguments by name fit parameters.
ghost use Rattle.std.specs.Prelude.{◌≡◌};
ghost use Rattle.std.specs.List.{list_all, list_any};
ghost use Rattle.std.specs.Str.{bytes_eq};
ghost use Rattle.py_value.specs.Elements.{are_distinct, are_words_of, word_names};
ghost use Rattle.ui_elements.specs.Calls.{parameters_of, words_of};

use crate::args::Word;
use crate::parameters::Parameter;

/// Arguments by name are for different parameters of these.
pub fn are_words_of(words: &[Word], parameters: &[Parameter]) -> bool
    ensures { result ≡ are_words_of (parameters_of parameters.now) (words_of words.now) }
{
    are_parameters(words, parameters) && are_distinct(words)
}

// Each argument is for a parameter of these.
fn are_parameters(words: &[Word], parameters: &[Parameter]) -> bool
    ensures { result
        ≡ list_all (λ w. list_any (λ p. bytes_eq p.name.now w.name) parameters.now) words.now }
{
    words
        .iter()
        .all(|word| is_parameter(parameters, word.name.items()))
}

fn is_parameter(parameters: &[Parameter], name: &str) -> bool
    ensures { result ≡ list_any (λ p. bytes_eq p.name.now name.now) parameters.now }
{
    parameters.iter().any(|parameter| parameter.name == name)
}

// No name stands twice.
#[tactic(auto, using(crate::proofs::Names::names))]
fn are_distinct(words: &[Word]) -> bool
    ensures { result ≡ are_distinct (word_names (words_of words.now)) }
{
    for (at, word) in words.iter().enumerate() {
        if is_word(&words[at + 1..], word.name.items()) {
            return false;
        }
    }
    true
}

fn is_word(words: &[Word], name: &str) -> bool
    ensures { result ≡ list_any (λ w. bytes_eq w.name name.now) words.now }
{
    words.iter().any(|word| word.name.items() == name)
}
