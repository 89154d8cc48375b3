// The text of a file.
ghost use Rattle.std.specs.Str.{IsUtf8};
ghost use Rattle.std.specs.Prelude.{◌++◌, ◌<◌, ◌≤◌, drop, length, string_bytes, IfSome, MatchOption, ◌≡◌, ◌&&◌, ◌||◌, ◌==◌, not, IfOk, IsTrue};
ghost use Rattle.py_lexer.specs.Clean as clean;
ghost use Rattle.lexical_form.specs.Readable as text;

use std::alloc::{AllocError, Global};

/// Whether the bytes hold no `\r`, form feed or byte order mark. So no copy of them is needed: they are their text as they stand, and wholly.
pub fn is_clean(bytes: &[u8]) -> bool
    ensures is { result ≡ clean.is_clean bytes.now }
    ensures same { IsTrue result → (text.readable bytes.now ≡ bytes.now) × IsTrue (text.is_readable bytes.now) }
{
    holds_nothing_odd(bytes)
}

/// Whether no character stands in the bytes that stands in no file: a `\r` that no `\n` follows, a form feed, a byte order mark.
pub fn is_readable(bytes: &[u8]) -> bool
    ensures { result ≡ text.is_readable bytes.now }
{
    for i in 0..bytes.len() {
        if is_barred(bytes[i], &bytes[i + 1..]) {
            return false;
        }
    }
    true
}

/// The text up to the first such character, with a `\n` for each `\r\n` (Python language reference, section 2.1.2).
pub fn readable(alloc: Global, bytes: &str) -> Result<String, AllocError>
    ensures { IfOk result (λ s. string_bytes s ≡ text.readable bytes.now) }
{
    let mut copy = String::new(alloc);
    let mut rest = bytes;
    while let Some((front, behind)) = before_return(rest) {
        copy.push_str(front)?;
        rest = behind;
    }
    let (front, _behind) = split_even(rest);
    copy.push_str(front)?;
    Ok(copy)
}

// What stands before a `\r\n`, and what is behind its `\r`; none where anything odd stands before the first of these.
fn before_return(bytes: &str) -> Option<(&str, &str)>
    ensures reads { MatchOption result (text.readable bytes.now ≡ clean.even_front bytes.now)
        (λ p. (text.readable bytes.now ≡ p.0.now ++ text.readable p.1.now) × (length p.1.now < length bytes.now)) }
    ensures text { IfSome result (λ p. IsUtf8 p.1.now) }
{
    let (front, behind) = split_even(bytes);
    if !starts_return(behind.as_bytes()) {
        return None;
    }
    let (_return, behind) = behind.split_at(1);
    Some((front, behind))
}

// What stands before anything odd, and the rest.
fn split_even(bytes: &str) -> (&str, &str)
    ensures front { result.0.now ≡ clean.even_front bytes.now }
    ensures behind { result.1.now ≡ drop (clean.even_len bytes.now) bytes.now }
    ensures text { IsUtf8 result.1.now }
{
    bytes.split_at(even_len(bytes.as_bytes()))
}

// How many bytes stand before anything odd.
fn even_len(bytes: &[u8]) -> usize
    ensures is { result ≡ clean.even_len bytes.now }
    ensures in_range { result ≤ length bytes.now }
{
    let mut len = 0;
    while len < bytes.len() && !is_odd(bytes[len], &bytes[len + 1..]) {
        len += 1;
    }
    len
}

fn starts_return(bytes: &[u8]) -> bool
    ensures { result ≡ clean.starts_return bytes.now }
{
    match bytes {
        [first, rest @ ..] => *first == b'\r' && starts_line_end(rest),
        [] => false,
    }
}

fn holds_nothing_odd(bytes: &[u8]) -> bool
    ensures { result ≡ clean.is_clean bytes.now }
{
    for i in 0..bytes.len() {
        if is_odd(bytes[i], &bytes[i + 1..]) {
            return false;
        }
    }
    true
}

fn ends_mark(bytes: &[u8]) -> bool
    ensures { result ≡ text.ends_mark bytes.now }
{
    match bytes {
        [first, second, ..] => *first == 0xbb && *second == 0xbf,
        _ => false,
    }
}

fn is_odd(byte: u8, behind: &[u8]) -> bool
    ensures { result ≡ clean.is_odd byte behind.now }
{
    match byte {
        b'\r' | 12 => true,
        239 => ends_mark(behind),
        _ => false,
    }
}

fn starts_line_end(bytes: &[u8]) -> bool
    ensures { result ≡ text.starts_end bytes.now }
{
    match bytes {
        [first, ..] => *first == b'\n',
        [] => false,
    }
}

fn is_barred(byte: u8, behind: &[u8]) -> bool
    ensures { result ≡ text.is_barred byte behind.now }
{
    match byte {
        b'\r' => !starts_line_end(behind),
        12 => true,
        239 => ends_mark(behind),
        _ => false,
    }
}
