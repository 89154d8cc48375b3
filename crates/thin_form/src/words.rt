// Words of a line.
ghost use Rattle.std.specs.Prelude.{◌≡◌, ◌∷◌, option_map};
ghost use Rattle.thin_form.specs.Words.{words, words_left};
ghost use Rattle.thin_form.specs.Words as reading;

// The text up to its first space, and the text after that space where there is one.
pub fn next_word(text: &str) -> (&str, Option<&str>)
    ensures { words text.now ≡ result.0.now ∷ words_left (option_map (λ t. t.now) result.1) }
{
    match text.split_once(' ') {
        Some((word, rest)) => (word, Some(rest)),
        None => (text, None),
    }
}

// The two words of the text, where it has no others.
pub fn two_words(text: &str) -> Option<(&str, &str)>
    ensures { option_map (λ p. (p.0.now, p.1.now)) result ≡ reading.two_words (words text.now) }
{
    let (first, rest) = next_word(text);
    let (second, end) = next_word(rest?);
    match end {
        None => Some((first, second)),
        Some(_) => None,
    }
}

// The word before ` = `, and the text after it.
pub fn target(text: &str) -> Option<(&str, &str)>
    ensures { option_map (λ p. (p.0.now, words p.1.now)) result ≡ reading.target (words text.now) }
{
    let (name, rest) = next_word(text);
    match next_word(rest?) {
        ("=", Some(value)) => Some((name, value)),
        _ => None,
    }
}

// What comes after `front` in a text that begins with it.
pub fn without_front<'a>(text: &'a str, front: &str) -> Option<&'a str>
    ensures { option_map (λ t. t.now) result ≡ reading.without_front front.now text.now }
{
    text.strip_prefix(front)
}

// What comes before `back` in a text that ends with it.
pub fn without_back<'a>(text: &'a str, back: &str) -> Option<&'a str>
    ensures { option_map (λ t. t.now) result ≡ reading.without_back back.now text.now }
{
    text.strip_suffix(back)
}
