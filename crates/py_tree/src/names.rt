// Whether a word is a name.
ghost use Rattle.std.specs.Prelude.{◌≡◌};
ghost use Rattle.std.specs.List.{list_all};
ghost use Rattle.py_tree.specs.Names.{is_among, is_name_byte};
ghost use Rattle.py_tree.specs.Names as names;

use crate::builtins::is_builtin;

// The keywords, and the names by which a file speaks of its notebook.
const KEYWORDS_AND_FILE_NAMES: [&str; 38] = [
    "False", "None", "True", "and", "as", "break", "continue", "def", "elif", "else", "for", "if",
    "import", "in", "is", "not", "or", "pass", "return", "while", "with", "assert", "async",
    "await", "class", "del", "except", "finally", "from", "global", "lambda", "nonlocal", "raise",
    "try", "yield", "app", "marimo", "mo",
];

/// Whether the word is spelled as a name, and is none of the reserved words.
pub fn is_name(word: &str) -> bool
    ensures { result ≡ names.is_name word.now }
{
    is_plain_name(word) && !is_reserved(word)
}

fn is_plain_name(word: &str) -> bool
    ensures { result ≡ names.is_plain_name word.now }
{
    match word.as_bytes() {
        [] => false,
        [first, rest @ ..] => first.is_ascii_lowercase() && are_name_bytes(rest),
    }
}

fn are_name_bytes(bytes: &[u8]) -> bool
    ensures { result ≡ list_all is_name_byte bytes.now }
{
    bytes.iter().all(|byte| name_byte(*byte))
}

fn name_byte(byte: u8) -> bool
    ensures { result ≡ is_name_byte byte }
{
    byte.is_ascii_lowercase() || byte.is_ascii_digit() || byte == b'_'
}

fn is_reserved(word: &str) -> bool
    ensures { result ≡ is_among word.now names.reserved }
{
    KEYWORDS_AND_FILE_NAMES.contains(&word) || is_builtin(word)
}
