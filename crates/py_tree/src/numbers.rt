// The number that a word spells.
ghost use Rattle.std.specs.Prelude.{◌≡◌, ◌<◌, ◌&&◌, ◌^◌, cond, length, nat_lt, pos, Some, None};
ghost use Rattle.std.specs.List.{list_all};
ghost use Rattle.py_tree.specs.Names.{is_digit};
ghost use Rattle.py_tree.specs.Numbers.{is_number, number_of};

/// The number of the word: of a digit, or of digits that don't begin with 0, where an `i128` holds it.
pub fn number(word: &str) -> Option<i128>
    ensures { result ≡ cond (is_number word.now) (Some (pos (number_of word.now))) None }
{
    match word.as_bytes() {
        [] | [b'0', _, ..] => None,
        _ => decimal(word),
    }
}

// The number that digits spell, where an `i128` holds it.
fn decimal(word: &str) -> Option<i128>
    requires { 0 < length word.now }
    ensures { result
        ≡ cond (list_all is_digit word.now && nat_lt (number_of word.now) (2 ^ 127))
        (Some (pos (number_of word.now))) None }
{
    if !are_digits(word.as_bytes()) {
        return None;
    }
    word.parse::<i128>().ok()
}

fn are_digits(bytes: &[u8]) -> bool
    ensures { result ≡ list_all is_digit bytes.now }
{
    bytes.iter().all(|byte| byte.is_ascii_digit())
}
