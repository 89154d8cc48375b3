// The `repr` of a text.
ghost use Rattle.std.specs.Prelude.{◌≡◌, ◌<◌, ◌++◌, OnOk, false, flat_map};
ghost use Rattle.std.specs.Fmt.{digit_glyph};
ghost use Rattle.py_value.specs.Quoted.{quote_of, is_escaped, hex_escape, escape_of, escaped_byte, text_literal};

use crate::memory::Memory;
use crate::texts::Text;

// Appends a text as a literal.
pub(crate) fn push_quoted(text: &str, out: &mut Text) -> Result<(), Memory>
    ensures { OnOk result (out.new ≡ out.old ++ text_literal text.now) }
{
    let quote = quote_for(text);
    out.push_ascii(quote)?;
    push_escaped(quote, text, out)?;
    out.push_ascii(quote)
}

/// The hexadecimal digit of a number below 16, of ASCII.
pub fn hex_digit(number: u8) -> u8
    requires { number < 16 }
    ensures value { result ≡ digit_glyph false number }
    ensures ascii { result < 128 }
{
    if number < 10 {
        b'0' + number
    } else {
        b'a' + (number - 10)
    }
}

// The quote that a text stands in.
fn quote_for(text: &str) -> u8
    ensures value { result ≡ quote_of text.now }
    ensures ascii { result < 128 }
{
    let bytes = text.as_bytes();
    if bytes.contains(&b'\'') && !bytes.contains(&b'"') {
        b'"'
    } else {
        b'\''
    }
}

// Appends what stands between quotes for a text. Bytes that stand for themselves are appended in one run, and runs begin and end
// beside ASCII, so each is a text.
fn push_escaped(quote: u8, text: &str, out: &mut Text) -> Result<(), Memory>
    requires { quote < 128 }
    ensures { OnOk result (out.new ≡ out.old ++ flat_map (escaped_byte quote) text.now) }
{
    let mut start = 0;
    for (i, byte) in text.as_bytes().iter().enumerate() {
        if needs_escape(quote, *byte) {
            out.push_str(&text[start..i])?;
            push_escape(*byte, out)?;
            start = i + 1;
        }
    }
    out.push_str(&text[start..])
}

// Whether a byte doesn't stand for itself between quotes.
fn needs_escape(quote: u8, byte: u8) -> bool
    ensures { result ≡ is_escaped quote byte }
{
    byte == quote || byte == b'\\' || byte < 32 || byte == 127
}

// Appends what stands for a byte that doesn't stand for itself.
fn push_escape(byte: u8, out: &mut Text) -> Result<(), Memory>
    requires { byte < 128 }
    ensures { OnOk result (out.new ≡ out.old ++ escape_of byte) }
{
    match byte {
        b'\t' => out.push_str("\\t"),
        b'\n' => out.push_str("\\n"),
        b'\r' => out.push_str("\\r"),
        0..=31 | 127 => push_hex_escape(byte, out),
        _ => {
            out.push_str("\\")?;
            out.push_ascii(byte)
        }
    }
}

// Appends a byte by its number.
fn push_hex_escape(byte: u8, out: &mut Text) -> Result<(), Memory>
    ensures { OnOk result (out.new ≡ out.old ++ hex_escape byte) }
{
    out.push_str("\\x")?;
    out.push_ascii(hex_digit(byte / 16))?;
    out.push_ascii(hex_digit(byte % 16))
}
