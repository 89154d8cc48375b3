// Counts of lists.
ghost use Rattle.std.specs.Prelude.{◌≡◌, ◌+◌, length};
ghost use Rattle.syntax_reading.specs.Readers as reading;
ghost use Rattle.syntax_words.specs.WordView.{words_of};

use syntax_words::Words;

/// Whether there is one.
pub fn is_some<T>(items: &Vec<T>) -> bool
    ensures { result ≡ reading.is_some items.now.items }
{
    !items.is_empty()
}

/// As many turns as a loop over the words may take, each over one word or more.
#[tactic(auto, using(crate::proofs::Words::as_many_words))]
pub fn turns_for(words: Words<'_>) -> usize
    ensures { result ≡ length (words_of words.entry) + 1 }
{
    words.words.len() + 1
}
