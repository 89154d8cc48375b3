// Formats of f-text fields.
ghost use Rattle.std.specs.Prelude.{◌≡◌, ◌∷◌, ◌++◌, ℕ, List, IfSome, IsTrue, MatchOption, cond, nat_le, Some, None, option_map};
ghost use Rattle.std.specs.List.{list_all};
ghost use Rattle.py_tree.specs.Names as names;
ghost use Rattle.py_tree.specs.FieldView.{view_align, view_form, view_spec};
ghost use Rattle.lexical_form.specs.Formats as formats;
ghost use Rattle.lexical_form.specs.Formats.{Format};
ghost use Rattle.lexical_form.specs.FormatReader.{format_at};
ghost use Rattle.py_lexer.specs.FormatParts as parts;
ghost use Rattle.lexical_form.specs.Numbers as numbers;
ghost use Rattle.lexical_form.specs.Reading.{span};

use crate::words::is_digit;
use py_tokens::{Align, Form, Spec};

/// What a format at the front says, and what is behind it; none only where no format ends directly before a `}`. Where the one that is read
/// ends there, as in a field, no other one does.
pub fn format(bytes: &[u8]) -> Option<(Spec, &[u8])>
    ensures found { IfSome result (λ p. (f : Format) × IsTrue (formats.is_format f)
        × (bytes.now ≡ formats.format_spelling f ++ p.1.now) × (view_spec p.0 ≡ formats.spec_of f)) }
    ensures whole { (f : Format) (rest : List ℕ) → IsTrue (formats.is_format f)
        → bytes.now ≡ formats.format_spelling f ++ 125 ∷ rest
        → MatchOption result ⊥ (λ p. (view_spec p.0 ≡ formats.spec_of f) × (p.1.now ≡ 125 ∷ rest)) }
    ensures reads { option_map (λ p. (view_spec p.0, p.1.now)) result ≡ parts.some_spec (format_at bytes.now) }
{
    said(bytes)
}

// The same, by the first byte.
fn said(bytes: &[u8]) -> Option<(Spec, &[u8])>
    ensures { option_map (λ p. (view_spec p.0, p.1.now)) result ≡ parts.format_says bytes.now }
{
    let [first, rest @ ..] = bytes else {
        return aligned(bytes);
    };
    if *first == b'0' {
        return zeros(rest);
    }
    if *first == b',' {
        let (decimal, rest) = optional_d(rest);
        return Some((Spec::Comma { decimal }, rest));
    }
    aligned(bytes)
}

// The run of digits at the front, and what is behind it.
fn digits(bytes: &[u8]) -> (&[u8], &[u8])
    ensures { (result.0.now, result.1.now) ≡ span names.is_digit bytes.now }
{
    let mut len = 0;
    while len < bytes.len() && is_digit(bytes[len]) {
        len += 1;
    }
    bytes.split_at(len)
}

fn are_digits(bytes: &[u8]) -> bool
    ensures { result ≡ list_all names.is_digit bytes.now }
{
    bytes.iter().all(|byte| is_digit(*byte))
}

// The number of the digits, where it is at most 200.
fn small_number(digits: &[u8]) -> Option<u8>
    ensures { result
        ≡ cond (nat_le (numbers.number_of digits.now) 200) (Some (numbers.number_of digits.now)) None }
{
    let mut number: u32 = 0;
    for digit in digits {
        if number > 200 {
            return None;
        }
        if *digit != b'_' {
            number = 10 * number + u32::from(digit.saturating_sub(b'0'));
        }
    }
    if number <= 200 {
        Some(number as u8)
    } else {
        None
    }
}

// The width that the digits spell.
fn width(digits: &[u8]) -> Option<u8>
    ensures { result ≡ cond (formats.is_width digits.now) (Some (numbers.number_of digits.now)) None }
{
    if !are_digits(digits) {
        return None;
    }
    let [first, ..] = digits else {
        return None;
    };
    if *first == b'0' {
        return None;
    }
    match small_number(digits) {
        Some(0) => None,
        number => number,
    }
}

// A `d` at the front.
fn optional_d(bytes: &[u8]) -> (bool, &[u8])
    ensures { (result.0, result.1.now) ≡ parts.optional_d bytes.now }
{
    match bytes {
        [b'd', rest @ ..] => (true, rest),
        _ => (false, bytes),
    }
}

fn alignment(bytes: &[u8]) -> (Option<Align>, &[u8])
    ensures { (option_map view_align result.0, result.1.now) ≡ parts.alignment bytes.now }
{
    match bytes {
        [b'<', rest @ ..] => (Some(Align::Left), rest),
        [b'>', rest @ ..] => (Some(Align::Right), rest),
        [b'^', rest @ ..] => (Some(Align::Center), rest),
        _ => (None, bytes),
    }
}

fn form(bytes: &[u8]) -> (Option<Form>, &[u8])
    ensures { (option_map view_form result.0, result.1.now) ≡ parts.form bytes.now }
{
    match bytes {
        [b'd', rest @ ..] => (Some(Form::Decimal), rest),
        [b's', rest @ ..] => (Some(Form::Text), rest),
        _ => (None, bytes),
    }
}

fn aligned(bytes: &[u8]) -> Option<(Spec, &[u8])>
    ensures { option_map (λ p. (view_spec p.0, p.1.now)) result ≡ parts.aligned_says bytes.now }
{
    let (align, rest) = alignment(bytes);
    let (front, rest) = digits(rest);
    let (form, rest) = form(rest);
    if front.is_empty() {
        let spec = Spec::Aligned {
            align,
            width: None,
            form,
        };
        return Some((spec, rest));
    }
    let Some(number) = width(front) else {
        return None;
    };
    let spec = Spec::Aligned {
        align,
        width: Some(number),
        form,
    };
    Some((spec, rest))
}

fn zeros(bytes: &[u8]) -> Option<(Spec, &[u8])>
    ensures { option_map (λ p. (view_spec p.0, p.1.now)) result ≡ parts.zeros_says bytes.now }
{
    let (front, rest) = digits(bytes);
    let (decimal, rest) = optional_d(rest);
    let Some(number) = width(front) else {
        return None;
    };
    let spec = Spec::Zeros {
        width: number,
        decimal,
    };
    Some((spec, rest))
}
