// The end of a field, and the field whole.
ghost use Rattle.std.specs.Prelude.{◌≡◌, ◌&&◌, ◌==◌, not, IfOk, IfSome, MatchOption, None, option_map};
ghost use Rattle.std.specs.List.{list_all};
ghost use Rattle.std.specs.Str.{IsUtf8};
ghost use Rattle.lexical_form.specs.Bytes as kinds;
ghost use Rattle.lexical_form.specs.Fields as fields;
ghost use Rattle.lexical_form.specs.FieldReader.{convert_at, field_at};
ghost use Rattle.py_lexer.specs.Views.{quotes};
ghost use Rattle.py_tree.specs.FieldView.{view_convert, view_spec};
ghost use Rattle.lexical_form.specs.Tokens as pure;
ghost use Rattle.py_tokens.specs.TokenView.{view_piece, view_tokens};
ghost use Rattle.py_lines.specs.FieldEnds as ends;
ghost use Rattle.py_lines.specs.FieldEnds.{FieldRead};
ghost use Rattle.py_lines.specs.FieldSteps.{inside};

use crate::fields::{Inside, items};
use py_lexer::{Quotes, format};
use py_tokens::{Convert, Names, Piece, Spec, Tokens};
use std::alloc::{AllocError, Global};

// `!r` or `!s` at the front, and what is behind it.
fn conversion(bytes: &[u8]) -> (Convert, &[u8])
    ensures { (view_convert result.0, result.1.now) ≡ convert_at bytes.now }
{
    match bytes {
        [b'!', b'r', rest @ ..] => (Convert::Repr, rest),
        [b'!', b's', rest @ ..] => (Convert::Str, rest),
        _ => (Convert::Plain, bytes),
    }
}

// A `:` and a format at the front, and what is behind them.
fn optional_format(bytes: &[u8]) -> Option<(Option<Spec>, &[u8])>
    ensures { option_map (λ p. (option_map view_spec p.0, p.1.now)) result ≡ ends.format_part bytes.now }
{
    let [first, rest @ ..] = bytes else {
        return Some((None, bytes));
    };
    if *first != b':' {
        return Some((None, bytes));
    }
    match format(rest) {
        Some((spec, behind)) => Some((Some(spec), behind)),
        None => None,
    }
}

// The conversion and the format at the front, and what is behind the `}`.
fn tail(bytes: &[u8]) -> Option<((Convert, Option<Spec>), &[u8])>
    ensures { option_map (λ p. ((view_convert p.0.0, option_map view_spec p.0.1), p.1.now)) result ≡ ends.tail_says bytes.now }
{
    let (convert, rest) = conversion(bytes);
    let Some((spec, rest)) = optional_format(rest) else {
        return None;
    };
    let [first, behind @ ..] = rest else {
        return None;
    };
    if *first != b'}' {
        return None;
    }
    Some(((convert, spec), behind))
}

// Whether the byte stands in fields.
fn is_field_byte(q: Quotes, byte: u8) -> bool
    ensures { result ≡ fields.is_field_byte (quotes q) byte }
{
    byte != b'\\' && byte != b'\n' && byte != b'#' && (q.three || byte != q.mark)
}

fn starts_two(mark: u8, bytes: &[u8]) -> bool
    ensures { result ≡ kinds.starts_two mark bytes.now }
{
    match bytes {
        [first, second, ..] => *first == mark && *second == mark,
        _ => false,
    }
}

fn has_three(mark: u8, bytes: &[u8]) -> bool
    ensures { result ≡ fields.has_three mark bytes.now }
{
    for i in 0..bytes.len() {
        if bytes[i] == mark && starts_two(mark, &bytes[i + 1..]) {
            return true;
        }
    }
    false
}

fn are_field_bytes(q: Quotes, bytes: &[u8]) -> bool
    ensures { result ≡ list_all (fields.is_field_byte (quotes q)) bytes.now }
{
    bytes.iter().all(|byte| is_field_byte(q, *byte))
}

// Whether nothing in the field ends the f-text or stands in no field.
fn is_inside(q: Quotes, bytes: &[u8]) -> bool
    ensures { result ≡ fields.is_inside (quotes q) bytes.now }
{
    if !are_field_bytes(q, bytes) {
        return false;
    }
    !(q.three && has_three(q.mark, bytes))
}

fn starts_brace(bytes: &[u8]) -> bool
    ensures { result ≡ kinds.starts (λ c. c == 123) bytes.now }
{
    match bytes {
        [first, ..] => *first == b'{',
        [] => false,
    }
}

// Whether there are tokens, and no bracket is left open.
fn is_closed(found: &Inside) -> bool
    ensures { result ≡ (not (kinds.is_empty (inside found.now).1) && kinds.is_empty (inside found.now).0) }
{
    !found.tokens.is_empty() && found.stack.is_empty()
}

// Whether these tokens and bytes are a field.
fn is_whole(q: Quotes, found: &Inside, field: &[u8]) -> bool
    ensures { result ≡ ends.is_whole (quotes q) (inside found.now) field.now }
{
    if !is_closed(found) {
        return false;
    }
    if !is_inside(q, field) {
        return false;
    }
    !starts_brace(field)
}

fn field_piece(tokens: Tokens, convert: Convert, spec: Option<Spec>) -> Piece
    ensures { view_piece result ≡ pure.field (view_tokens tokens) (view_convert convert) (option_map view_spec spec) }
{
    Piece::Field {
        tokens,
        convert,
        spec,
    }
}

// The field at the front, and how many bytes it has.
fn measured(
    alloc: Global,
    names: &mut Names,
    q: Quotes,
    text: &str,
) -> Result<Option<(Piece, usize)>, AllocError>
    ensures { IfOk result (λ o. MatchOption o (field_at (quotes q) text.now ≡ None)
        (λ p. FieldRead (quotes q) text.now p.1 (view_piece p.0))) }
{
    let (found, rest) = items(alloc, names, text)?;
    let Some(((convert, spec), behind)) = tail(rest.as_bytes()) else {
        return Ok(None);
    };
    let bytes = text.as_bytes();
    let len = bytes.len().saturating_sub(behind.len());
    if !is_whole(q, &found, &bytes[..len]) {
        return Ok(None);
    }
    let tokens = Tokens::of(found.tokens);
    let piece = field_piece(tokens, convert, spec);
    Ok(Some((piece, len)))
}

/// The field at the front, of which the `{` is read, and what is behind its `}`; none where no field is there.
pub fn field<'a>(
    alloc: Global,
    names: &mut Names,
    q: Quotes,
    text: &'a str,
) -> Result<Option<(Piece, &'a str)>, AllocError>
    ensures reads { IfOk result (λ o. option_map (λ p. (view_piece p.0, p.1.now)) o
        ≡ ends.piece_read (field_at (quotes q) text.now)) }
    ensures text { IfOk result (λ o. IfSome o (λ p. IsUtf8 p.1.now)) }
{
    let Some((piece, len)) = measured(alloc, names, q, text)? else {
        return Ok(None);
    };
    let (_field, behind) = text.split_at(len);
    Ok(Some((piece, behind)))
}
