// Whole numbers.
ghost use Rattle.std.specs.Prelude.{◌≡◌, ◌<◌, ◌^◌, nat_lt, false, cond, pos, Some, None};
ghost use Rattle.py_tree.specs.Names as names;
ghost use Rattle.lexical_form.specs.Numbers as numbers;
ghost use Rattle.py_lexer.specs.Digits as digits;

use crate::words::is_digit;

const MOST: u128 = 170_141_183_460_469_231_731_687_303_715_884_105_727;

const MOST_BEFORE_A_DIGIT: u128 = 17_014_118_346_046_923_173_168_730_371_588_410_572;

// Whether the bytes are digits with single `_` between them.
fn are_digits(bytes: &[u8]) -> bool
    ensures { result ≡ numbers.are_digits false bytes.now }
{
    let mut digit = false;
    for byte in bytes {
        if is_digit(*byte) {
            digit = true;
        } else if *byte == b'_' && digit {
            digit = false;
        } else {
            return false;
        }
    }
    digit
}

// The number with a digit more, where it is not too great.
fn with_digit(number: u128, byte: u8) -> Option<u128>
    ensures { result ≡ digits.with_digit number byte }
{
    if byte == b'_' {
        return Some(number);
    }
    if number > MOST_BEFORE_A_DIGIT {
        return None;
    }
    Some(10 * number + u128::from(byte.saturating_sub(b'0')))
}

// The number that the bytes spell, where it is at most 2^127 - 1.
fn small_number(bytes: &[u8]) -> Option<u128>
    ensures { result ≡ cond (nat_lt (numbers.number_of bytes.now) (2 ^ 127)) (Some (numbers.number_of bytes.now)) None }
{
    let mut number: u128 = 0;
    for byte in bytes {
        let Some(more) = with_digit(number, *byte) else {
            return None;
        };
        number = more;
    }
    if number <= MOST { Some(number) } else { None }
}

/// Whether the bytes spell a number.
pub fn is_number(bytes: &[u8]) -> bool
    ensures { result ≡ numbers.is_number bytes.now }
{
    match bytes {
        [] => false,
        [byte] => is_digit(*byte),
        [first, ..] => are_digits(bytes) && *first != b'0' && small_number(bytes).is_some(),
    }
}

/// The number that the text spells; none where it isn't spelled as a number is (Python language reference, section 2.4.5).
pub fn number(text: &str) -> Option<i128>
    ensures { result ≡ cond (numbers.is_number text.now) (Some (pos (numbers.number_of text.now))) None }
{
    let bytes = text.as_bytes();
    if !is_number(bytes) {
        return None;
    }
    let Some(number) = small_number(bytes) else {
        return None;
    };
    Some(number as i128)
}
