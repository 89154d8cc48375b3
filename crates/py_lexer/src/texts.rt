// Texts: where they end.
ghost use Rattle.std.specs.Prelude.{◌≡◌, ◌≤◌, ◌||◌, ◌&&◌, ◌==◌, not, cond, Some, None, IsTrue, length, option_map};
ghost use Rattle.std.specs.List.{list_all};
ghost use Rattle.lexical_form.specs.Bytes as kinds;
ghost use Rattle.lexical_form.specs.Texts as texts;
ghost use Rattle.lexical_form.specs.TextReader as reader;
ghost use Rattle.py_lexer.specs.Ends as ends;
ghost use Rattle.py_lexer.specs.Views.{quotes};

/// The quotes of a text: which one, whether three stand on each side, and whether a backslash only stands for itself.
#[derive(Clone, Copy, Debug)]
pub struct Quotes {
    pub mark: u8,
    pub three: bool,
    pub raw: bool,
}

fn is_hex(byte: u8) -> bool
    ensures { result ≡ kinds.is_hex byte }
{
    byte.is_ascii_hexdigit()
}

fn hex_digit(byte: u8) -> u32
    requires { IsTrue (kinds.is_hex byte) }
    ensures value { result ≡ kinds.hex_digit byte }
    ensures small { result ≤ 15 }
{
    if byte.is_ascii_digit() {
        u32::from(byte - b'0')
    } else if byte <= b'F' {
        u32::from(byte - b'A') + 10
    } else {
        u32::from(byte - b'a') + 10
    }
}

/// How many hexadecimal digits follow the byte in an escape.
pub fn hex_digits(byte: u8) -> usize
    ensures { result ≡ texts.hex_digits byte }
{
    match byte {
        b'x' => 2,
        b'u' => 4,
        b'U' => 8,
        _ => 0,
    }
}

fn is_character(number: u32) -> bool
    ensures { result ≡ kinds.is_character number }
{
    number < 0xd800 || (number >= 0xe000 && number < 0x11_0000)
}

fn are_hex(bytes: &[u8]) -> bool
    ensures { result ≡ list_all kinds.is_hex bytes.now }
{
    bytes.iter().all(|byte| is_hex(*byte))
}

fn is_plain(q: Quotes, byte: u8) -> bool
    ensures { result ≡ texts.is_plain (quotes q) byte }
{
    byte != q.mark && byte != b'\\' && (q.three || byte != b'\n')
}

// The number of the hexadecimal digits, where a character has it.
fn character_number(digits: &[u8]) -> Option<u32>
    requires { IsTrue (list_all kinds.is_hex digits.now) }
    ensures { result ≡ cond (kinds.is_character (kinds.hex_number digits.now)) (Some (kinds.hex_number digits.now)) None }
{
    let mut number: u32 = 0;
    for digit in digits {
        if number >= 0x11_0000 {
            return None;
        }
        number = 16 * number + hex_digit(*digit);
    }
    if is_character(number) {
        Some(number)
    } else {
        None
    }
}

/// The character whose number the bytes are in hexadecimal digits; none where they are no such digits, or no character has that number.
pub fn character(digits: &[u8]) -> Option<char>
    ensures { result ≡ cond (list_all kinds.is_hex digits.now && kinds.is_character (kinds.hex_number digits.now)) (Some (kinds.hex_number digits.now)) None }
{
    if !are_hex(digits) {
        return None;
    }
    let Some(number) = character_number(digits) else {
        return None;
    };
    char::from_u32(number)
}

// Whether the bytes may follow the first byte of an escape.
fn is_meant(first: u8, digits: &[u8]) -> bool
    ensures { result ≡ texts.is_meant first digits.now }
{
    if hex_digits(first) == 0 {
        !first.is_ascii_digit() && first != b'N'
    } else {
        character(digits).is_some()
    }
}

// What is behind the digits of an escape.
fn meant(first: u8, rest: &[u8]) -> Option<&[u8]>
    ensures { option_map (λ after. after.now) result ≡ ends.meant_end first rest.now }
{
    let n = hex_digits(first);
    if rest.len() < n {
        return None;
    }
    let (digits, after) = rest.split_at(n);
    if is_meant(first, digits) {
        Some(after)
    } else {
        None
    }
}

// Whether the byte may stand in the text: a line end only in three quotes.
fn may_stand(q: Quotes, byte: u8) -> bool
    ensures { result ≡ (q.three || not (byte == 10)) }
{
    q.three || byte != b'\n'
}

// What is behind the escape that stands behind a backslash.
fn escape(q: Quotes, bytes: &[u8]) -> Option<&[u8]>
    ensures { option_map (λ rest. rest.now) result ≡ ends.escape_end (quotes q) bytes.now }
{
    let [first, rest @ ..] = bytes else {
        return None;
    };
    if !may_stand(q, *first) {
        return None;
    }
    if q.raw {
        return Some(rest);
    }
    meant(*first, rest)
}

// What is behind the part at the front.
fn part(q: Quotes, bytes: &[u8]) -> Option<&[u8]>
    ensures { option_map (λ rest. rest.now) result ≡ ends.part_end (quotes q) bytes.now }
{
    let [first, rest @ ..] = bytes else {
        return None;
    };
    if *first == b'\\' {
        escape(q, rest)
    } else if is_plain(q, *first) {
        Some(rest)
    } else {
        None
    }
}

/// How many quotes stand at the front: two at most, and only where three enclose the text.
pub fn lead(q: Quotes, bytes: &[u8]) -> usize
    ensures is { result ≡ reader.lead (quotes q) bytes.now }
    ensures in_range { result ≤ length bytes.now }
{
    if !q.three {
        return 0;
    }
    match bytes {
        [a, b, ..] if *a == q.mark && *b == q.mark => 2,
        [a, ..] if *a == q.mark => 1,
        _ => 0,
    }
}

// What is behind the item at the front.
fn item(q: Quotes, bytes: &[u8]) -> Option<&[u8]>
    ensures { option_map (λ rest. rest.now) result ≡ ends.item_end (quotes q) bytes.now }
{
    let n = lead(q, bytes);
    part(q, &bytes[n..])
}

// What is behind the last item.
#[tactic(auto, using(crate::proofs::ItemEnds::item_none))]
pub fn items(q: Quotes, bytes: &[u8]) -> &[u8]
    requires { IsTrue (kinds.is_quote q.mark) }
    ensures { result.now ≡ ends.items_end (quotes q) bytes.now }
{
    let mut rest = bytes;
    while let Some(after) = item(q, rest) {
        rest = after;
    }
    rest
}
