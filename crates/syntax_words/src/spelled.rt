// Which keyword or mark a spelling is.
ghost use Rattle.std.specs.Prelude.{◌≡◌, option_map};
ghost use Rattle.syntax_reading.specs.Words.{find, keyword_words, mark_words};
ghost use Rattle.syntax_words.specs.FixedView.{view_fixed};

use crate::fixed::Fixed;

// The keyword with this spelling that has a place in a form.
pub(crate) fn fixed_keyword(spelling: &str) -> Option<Fixed>
    ensures { option_map view_fixed result ≡ find keyword_words spelling.now }
{
    match spelling {
        "if" => Some(Fixed::If),
        "else" => Some(Fixed::Else),
        "or" => Some(Fixed::Or),
        "and" => Some(Fixed::And),
        "not" => Some(Fixed::Not),
        "in" => Some(Fixed::In),
        "is" => Some(Fixed::Is),
        "for" => Some(Fixed::For),
        "elif" => Some(Fixed::Elif),
        "while" => Some(Fixed::While),
        "def" => Some(Fixed::Def),
        "return" => Some(Fixed::Return),
        "pass" => Some(Fixed::Pass),
        "break" => Some(Fixed::Break),
        "continue" => Some(Fixed::Continue),
        "import" => Some(Fixed::Import),
        "as" => Some(Fixed::As),
        "with" => Some(Fixed::With),
        _ => None,
    }
}

// The mark with this spelling that has a place in a form.
pub(crate) fn fixed_mark(spelling: &str) -> Option<Fixed>
    ensures { option_map view_fixed result ≡ find mark_words spelling.now }
{
    match spelling {
        "+" => Some(Fixed::Plus),
        "-" => Some(Fixed::Minus),
        "*" => Some(Fixed::Star),
        "**" => Some(Fixed::Stars),
        "//" => Some(Fixed::Slashes),
        "%" => Some(Fixed::Percent),
        "==" => Some(Fixed::Equal),
        "!=" => Some(Fixed::Unequal),
        "<" => Some(Fixed::Less),
        "<=" => Some(Fixed::AtMost),
        ">" => Some(Fixed::Greater),
        ">=" => Some(Fixed::AtLeast),
        "=" => Some(Fixed::Assign),
        "+=" => Some(Fixed::AddTo),
        "-=" => Some(Fixed::SubtractFrom),
        "*=" => Some(Fixed::MultiplyBy),
        "//=" => Some(Fixed::FloorBy),
        "%=" => Some(Fixed::RemainderBy),
        "(" => Some(Fixed::RoundOpen),
        ")" => Some(Fixed::RoundClose),
        "[" => Some(Fixed::SquareOpen),
        "]" => Some(Fixed::SquareClose),
        "{" => Some(Fixed::BraceOpen),
        "}" => Some(Fixed::BraceClose),
        "," => Some(Fixed::Comma),
        ":" => Some(Fixed::Colon),
        "." => Some(Fixed::Dot),
        "@" => Some(Fixed::AtSign),
        _ => None,
    }
}
