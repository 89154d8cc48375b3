// Strings and numbers of JSON.
ghost use Rattle.std.specs.Prelude.{◌≡◌, ◌++◌, ◌||◌, ◌==◌, nat_lt, OnOk, decimal, flat_map};
ghost use Rattle.frame_meaning.specs.FrameText.{escaped_byte, json_string};

use py_value::hex_digit;
use std::alloc::{AllocError, Global};

// A text as a string.
pub fn push_quoted(out: &mut Vec<u8>, text: &[u8]) -> Result<(), AllocError>
    ensures { OnOk result (out.new.items ≡ out.old.items ++ json_string text.now) }
{
    out.extend_from_slice(b"\"")?;
    push_escaped(out, text)?;
    out.extend_from_slice(b"\"")
}

// A number in digits.
pub fn push_number(alloc: Global, out: &mut Vec<u8>, number: u32) -> Result<(), AllocError>
    ensures { OnOk result (out.new.items ≡ out.old.items ++ decimal number) }
{
    let digits = number.to_string(alloc)?;
    out.extend_from_slice(digits.as_bytes())
}

// A text as it stands between the quotes of a string. Bytes that stand for themselves are appended in one run.
fn push_escaped(out: &mut Vec<u8>, text: &[u8]) -> Result<(), AllocError>
    ensures { OnOk result (out.new.items ≡ out.old.items ++ flat_map escaped_byte text.now) }
{
    let mut start = 0;
    for (i, byte) in text.iter().enumerate() {
        if needs_escape(*byte) {
            out.extend_from_slice(&text[start..i])?;
            push_escaped_byte(out, *byte)?;
            start = i + 1;
        }
    }
    out.extend_from_slice(&text[start..])
}

// Whether a byte doesn't stand for itself in a string (RFC 8259, section 7).
fn needs_escape(byte: u8) -> bool
    ensures { result ≡ nat_lt byte 32 || (byte == 34) || (byte == 92) }
{
    byte < 32 || byte == b'"' || byte == b'\\'
}

// What stands in a string for a byte.
fn push_escaped_byte(out: &mut Vec<u8>, byte: u8) -> Result<(), AllocError>
    ensures { OnOk result (out.new.items ≡ out.old.items ++ escaped_byte byte) }
{
    match byte {
        b'"' | b'\\' => out.extend_from_slice(&[b'\\', byte]),
        8 => out.extend_from_slice(b"\\b"),
        9 => out.extend_from_slice(b"\\t"),
        10 => out.extend_from_slice(b"\\n"),
        12 => out.extend_from_slice(b"\\f"),
        13 => out.extend_from_slice(b"\\r"),
        0..=31 => {
            out.extend_from_slice(&[
                b'\\',
                b'u',
                b'0',
                b'0',
                hex_digit(byte / 16),
                hex_digit(byte % 16),
            ])
        }
        _ => out.extend_from_slice(&[byte]),
    }
}
