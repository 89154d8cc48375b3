// Runs of bytes of names.
ghost use Rattle.std.specs.Prelude.{◌≡◌};
ghost use Rattle.py_tree.specs.Names.{continues_name};
ghost use Rattle.py_tree.specs.Names as names;
ghost use Rattle.lexical_form.specs.Bytes as kinds;
ghost use Rattle.lexical_form.specs.Reading.{span};
ghost use Rattle.lexical_form.specs.Bytes.{starts};

fn is_name_byte(byte: u8) -> bool
    ensures { result ≡ continues_name byte }
{
    byte.is_ascii_alphanumeric() || byte == b'_'
}

/// The longest run of bytes of a name at the front, and what is behind it.
pub fn word(bytes: &[u8]) -> (&[u8], &[u8])
    ensures { (result.0.now, result.1.now) ≡ span continues_name bytes.now }
{
    let mut len = 0;
    while len < bytes.len() && is_name_byte(bytes[len]) {
        len += 1;
    }
    bytes.split_at(len)
}

pub fn is_digit(byte: u8) -> bool
    ensures { result ≡ names.is_digit byte }
{
    byte.is_ascii_digit()
}

/// Whether the byte is `'` or `"`.
pub fn is_quote(byte: u8) -> bool
    ensures { result ≡ kinds.is_quote byte }
{
    byte == b'\'' || byte == b'"'
}

/// Whether a quote stands at the front.
pub fn starts_quote(bytes: &[u8]) -> bool
    ensures { result ≡ starts kinds.is_quote bytes.now }
{
    match bytes {
        [first, ..] => is_quote(*first),
        [] => false,
    }
}
