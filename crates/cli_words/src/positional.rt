// Words that name something.
ghost use Rattle.std.specs.Prelude.{◌≡◌};
ghost use Rattle.command_meaning.specs.Commands.{is_positional};

/// Whether the word names something: it isn't empty and doesn't begin with `-`.
pub fn names_something(word: &str) -> bool
    ensures { result ≡ is_positional word.now }
{
    match word.as_bytes() {
        [] => false,
        [first, ..] => *first != b'-',
    }
}
