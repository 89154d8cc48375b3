// Cuts of texts.
ghost use Rattle.std.specs.Prelude.{◌≡◌, ◌≤◌, IsTrue, drop, length, nat_lt, take};
ghost use Rattle.std.specs.Str.{IsCharBoundary, IsUtf8};
ghost use Rattle.lexical_form.specs.Bytes as kinds;
ghost use Rattle.lexical_form.specs.Bytes.{starts};
ghost use Rattle.lexical_form.specs.Reading.{span};
ghost use Rattle.lexical_form.specs.TextReader as reader;
ghost use Rattle.py_lexer.specs.Views.{quotes};
ghost use Rattle.py_lines.specs.Characters.{is_run_byte};

use py_lexer::{Quotes, lead};

/// The first byte, and what is behind it.
pub fn split_first(text: &str) -> (&str, &str)
    requires { IsTrue (starts (λ c. nat_lt c 128) text.now) }
    ensures front { result.0.now ≡ take 1 text.now }
    ensures behind { result.1.now ≡ drop 1 text.now }
    ensures text { IsUtf8 result.1.now }
{
    text.split_at(1)
}

// Whether the byte stands for itself in an f-text.
fn is_run_byte(q: Quotes, byte: u8) -> bool
    ensures { result ≡ is_run_byte (quotes q) byte }
{
    byte != q.mark && byte != b'\\' && (q.three || byte != b'\n') && byte != b'{' && byte != b'}'
}

// How many bytes stand for themselves, up to the first that doesn't.
fn run_len(q: Quotes, bytes: &[u8]) -> usize
    requires { IsTrue (kinds.is_quote q.mark) }
    ensures is { (take result bytes.now, drop result bytes.now) ≡ span (is_run_byte (quotes q)) bytes.now }
    ensures boundary { IsCharBoundary bytes.now result }
{
    let mut len = 0;
    while len < bytes.len() && is_run_byte(q, bytes[len]) {
        len += 1;
    }
    len
}

/// The longest run of bytes that stand for themselves in an f-text, and what is behind it.
pub fn run(q: Quotes, text: &str) -> (&str, &str)
    requires { IsTrue (kinds.is_quote q.mark) }
    ensures is { (result.0.now, result.1.now) ≡ span (is_run_byte (quotes q)) text.now }
    ensures text { IsUtf8 result.1.now }
{
    text.split_at(run_len(q, text.as_bytes()))
}

/// The quotes directly before a part, and what is behind them.
pub fn split_lead(q: Quotes, text: &str) -> (&str, &str)
    requires { IsTrue (kinds.is_quote q.mark) }
    ensures front { result.0.now ≡ take (reader.lead (quotes q) text.now) text.now }
    ensures behind { result.1.now ≡ drop (reader.lead (quotes q) text.now) text.now }
    ensures text { IsUtf8 result.1.now }
{
    text.split_at(lead(q, text.as_bytes()))
}
