// A file with a token of every kind. The lines, spellings and kinds that are wanted are those that Python 3.11's `tokenize` gives for the
// same file; the pieces of f-texts are written by hand.
use crate::{lines, literal_text};
use py_lexer::LexFault;
use py_tokens::{Align, Convert, Form, LogicalLine, Piece, Pieces, Spec, Token, TokenKind, Tokens};
use std::alloc::{AllocError, Global};
use std::test::Fail;

const FILE: &str = r##"# every kind of token
if x_1 == 12_000 and not y != 0:
    z //= 2 ** 3 // 4 % 5 - 6

t = ['a"\x41', "b'", '''c
d''', R'\n\'', {1: (2, 3),  # a comment
    4: -5}]
@m.n
u = f"é{a!r:>5}{{}}{ b[1] :05d}\x41\q\é\u00e9" + rF'{x != y}\{z:,}\n'
v = F""""{d["k"]}
"{c!s}""", ''"", fr'é'
w *= x -= y %= z += o <= p >= q < r > s * 7
"##;

// A line of this text for each logical line: its line and indent, then its tokens, each with its kind and spelling, and an f-text with its
// pieces.
const WANTED: &str = r##"2:0 n(if) n(x_1) m(==) i(12_000) n(and) n(not) n(y) m(!=) i(0) m(:)
3:4 n(z) m(//=) i(2) m(**) i(3) m(//) i(4) m(%) i(5) m(-) i(6)
5:0 n(t) m(=) m([) t('a"\x41') m(,) t("b'") m(,) t('''c
d''') m(,) t(R'\n\'') m(,) m({) i(1) m(:) m(() i(2) m(,) i(3) m()) m(,) i(4) m(:) m(-) i(5) m(}) m(])
8:0 m(@) n(m) m(.) n(n)
9:0 n(u) m(=) f(f"é{a!r:>5}{{}}{ b[1] :05d}\x41\q\é\u00e9"|é|{a!r:>5}|{}|{b[1]:05d}|A\q\éé) m(+) f(rF'{x != y}\{z:,}\n'|{x!=y}|\|{z:,}|\n)
10:0 n(v) m(=) f(F""""{d["k"]}
"{c!s}"""|"|{d["k"]}|
"|{c!s}) m(,) t('') t("") m(,) f(fr'é'|é)
12:0 n(w) m(*=) n(x) m(-=) n(y) m(%=) n(z) m(+=) n(o) m(<=) n(p) m(>=) n(q) m(<) n(r) m(>) n(s) m(*) i(7)
"##;

fn put_number(alloc: Global, text: &mut String, number: u32) -> Result<(), AllocError> {
    let digits = format!(in alloc; "{number}")?;
    text.push_str(digits.as_str())
}

fn put_spec(alloc: Global, text: &mut String, spec: Spec) -> Result<(), AllocError> {
    match spec {
        Spec::Aligned { align, width, form } => {
            match align {
                Some(Align::Left) => text.push_str("<")?,
                Some(Align::Right) => text.push_str(">")?,
                Some(Align::Center) => text.push_str("^")?,
                None => {}
            }
            if let Some(width) = width {
                put_number(alloc, text, u32::from(width))?;
            }
            match form {
                Some(Form::Decimal) => text.push_str("d")?,
                Some(Form::Text) => text.push_str("s")?,
                None => {}
            }
        }
        Spec::Zeros { width, decimal } => {
            text.push_str("0")?;
            put_number(alloc, text, u32::from(width))?;
            if decimal {
                text.push_str("d")?;
            }
        }
        Spec::Comma { decimal } => {
            text.push_str(",")?;
            if decimal {
                text.push_str("d")?;
            }
        }
    }
    Ok(())
}

fn put_field(
    alloc: Global,
    text: &mut String,
    tokens: &Tokens,
    convert: Convert,
    spec: Option<Spec>,
) -> Result<(), AllocError> {
    text.push_str("{")?;
    for token in tokens.items() {
        text.push_str(token.spelling.items())?;
    }
    match convert {
        Convert::Plain => {}
        Convert::Repr => text.push_str("!r")?,
        Convert::Str => text.push_str("!s")?,
    }
    if let Some(spec) = spec {
        text.push_str(":")?;
        put_spec(alloc, text, spec)?;
    }
    text.push_str("}")
}

fn put_pieces(alloc: Global, text: &mut String, pieces: &Pieces) -> Result<(), AllocError> {
    for piece in pieces.items() {
        text.push_str("|")?;
        match piece {
            Piece::Chars(spelling) => text.push_str(spelling.items())?,
            Piece::Field {
                tokens,
                convert,
                spec,
            } => put_field(alloc, text, tokens, *convert, *spec)?,
        }
    }
    Ok(())
}

fn put_token(alloc: Global, text: &mut String, token: &Token) -> Result<(), AllocError> {
    text.push_str(match &token.kind {
        TokenKind::Name => " n(",
        TokenKind::Number => " i(",
        TokenKind::Text => " t(",
        TokenKind::FText(_) => " f(",
        TokenKind::Mark => " m(",
    })?;
    text.push_str(token.spelling.items())?;
    if let TokenKind::FText(pieces) = &token.kind {
        put_pieces(alloc, text, pieces)?;
    }
    text.push_str(")")
}

// The lines as such a text, counted from behind so many lines of the file.
fn written(alloc: Global, lines: &[LogicalLine], before: u32) -> Result<String, AllocError> {
    let mut text = String::new(alloc);
    for line in lines {
        put_number(alloc, &mut text, line.line.wrapping_sub(before))?;
        text.push_str(":")?;
        put_number(alloc, &mut text, line.indent)?;
        for token in line.tokens.items() {
            put_token(alloc, &mut text, token)?;
        }
        text.push_str("\n")?;
    }
    Ok(text)
}

fn answered(alloc: Global, bytes: &[u8]) -> Result<String, AllocError> {
    if bytes.len() > 2_000_000 {
        return String::from_str(alloc, "a long file");
    }
    match lines(alloc, bytes) {
        Ok(lines) => written(alloc, lines.as_slice(), 0),
        Err(LexFault::Token { line }) => format!(in alloc; "Token {line}"),
        Err(LexFault::NotUtf8 { line }) => format!(in alloc; "NotUtf8 {line}"),
        Err(LexFault::Memory) => Err(AllocError),
    }
}

#[test]
fn reads_every_kind_of_token(rt: HostRuntime) -> Result<(), Fail> {
    let alloc = rt.alloc();
    assert_eq!(rt; answered(alloc, FILE.as_bytes())?.as_str(), WANTED);
    Ok(())
}

// Further prefixes and formats, blank lines, blanks and comments. What is wanted is told in the same way.
const MORE: &str = r##"p = [r'\d', R"\"", '\x41\u00e9', """c
"d\U0001f600\
""", f'{a}', F"{b!s}", fr'{c:<3}', fR"{d!r:^4s}", Fr"""{e:,d}
""", FR'{g:0200}',

    rf'{h:s}', rF"{i:d}", Rf'{ j }', RF"{k:>}", not 9]  # in brackets
  # not in a line
"##;

const BLANKS: &str = "for o in p:\n   if o:\n\n\t# a tab\n    \n      l\t= o\n";

const WANTED_MORE: &str =
    r##"13:0 n(p) m(=) m([) t(r'\d') m(,) t(R"\"") m(,) t('\x41\u00e9') m(,) t("""c
"d\U0001f600\
""") m(,) f(f'{a}'|{a}) m(,) f(F"{b!s}"|{b!s}) m(,) f(fr'{c:<3}'|{c:<3}) m(,) f(fR"{d!r:^4s}"|{d!r:^4s}) m(,) f(Fr"""{e:,d}
"""|{e:,d}|
) m(,) f(FR'{g:0200}'|{g:0200}) m(,) f(rf'{h:s}'|{h:s}) m(,) f(rF"{i:d}"|{i:d}) m(,) f(Rf'{ j }'|{j}) m(,) f(RF"{k:>}"|{k:>}) m(,) n(not) i(9) m(])
20:0 n(for) n(o) n(in) n(p) m(:)
21:3 n(if) n(o) m(:)
25:6 n(l) m(=) n(o)
"##;

// The lines of FILE, MORE and BLANKS.
const BLOCK_LINES: u32 = 25;

// FILE, MORE and BLANKS 1,756 times, and behind them a comment up to 1,048,576 bytes.
fn large_file(alloc: Global) -> Result<String, AllocError> {
    let mut file = String::new(alloc);
    for _ in 0..1_756 {
        file.push_str(FILE)?;
        file.push_str(MORE)?;
        file.push_str(BLANKS)?;
    }
    for _ in file.len()..1_048_576 {
        file.push_str("#")?;
    }
    Ok(file)
}

// Python 3.11's `tokenize` gives the same 19,316 logical lines for this file, of which the last one stands in line 43,900. Nothing may stand
// in a line behind them, so the file is refused there with a `?`.
#[test]
fn reads_a_large_file(rt: HostRuntime) -> Result<(), Fail> {
    let alloc = rt.alloc();
    let mut wanted = String::from_str(alloc, WANTED)?;
    wanted.push_str(WANTED_MORE)?;
    let mut file = large_file(alloc)?;
    assert_eq!(rt; file.len(), 1_048_576);
    let read = lines(alloc, file.as_str().as_bytes())?;
    assert_eq!(rt; read.len(), 19_316);
    let mut before: u32 = 0;
    for block in read.as_slice().chunks(11) {
        let told = written(alloc, block, before)?;
        assert_eq!(rt; told.as_str(), wanted.as_str(), "behind line {before}");
        before = before.wrapping_add(BLOCK_LINES);
    }
    assert_eq!(rt; before, 43_900);
    file.push_str("\n?")?;
    assert_eq!(rt;
        answered(alloc, file.as_str().as_bytes())?.as_str(),
        "Token 43902"
    );
    Ok(())
}

// Small files with one answer each, most of them refusals. Python 3.11 refuses the same f-texts but four: a blank before a width and a width
// over 200 are formats for it, and it reads an f-text and a `#` in a text of a field. A surrogate is no character of this language.
#[test]
fn answers_small_files(rt: HostRuntime) -> Result<(), Fail> {
    let alloc = rt.alloc();
    let cases: [(&str, &str); 16] = [
        ("", ""),
        ("f''''{a}'''", "1:0 f(f''''{a}'''|'|{a})\n"),
        (
            "f''\r\nrF'\\{{a}}'",
            "1:0 f(f'')\n2:0 f(rF'\\{{a}}'|\\{a})\n",
        ),
        (
            "f'{ {1: 2}[1] !r:^9s}'",
            "1:0 f(f'{ {1: 2}[1] !r:^9s}'|{{1:2}[1]!r:^9s})\n",
        ),
        (
            "f\"\\x41\\\\\\'\\a\\U0001f600\"",
            "1:0 f(f\"\\x41\\\\\\'\\a\\U0001f600\"|A\\'\x07😀)\n",
        ),
        ("a\nf'{}'", "Token 2"),
        ("f'}'", "Token 1"),
        ("f'{a!r }'", "Token 1"),
        ("f'{a: 5}'", "Token 1"),
        ("f'{a:201}'", "Token 1"),
        ("f'{f\"a\"}'", "Token 1"),
        ("f'{\"#\"}'", "Token 1"),
        ("f'{a\\n}'", "Token 1"),
        ("f'\\ud800'", "Token 1"),
        ("f'''\n{a'''", "Token 1"),
        ("f''''", "Token 1"),
    ];
    for (file, wanted) in cases {
        assert_eq!(rt; answered(alloc, file.as_bytes())?.as_str(), wanted);
    }
    assert_eq!(rt; answered(alloc, b"f'a\n\xff'")?.as_str(), "NotUtf8 2");
    Ok(())
}

fn told(alloc: Global, spelling: &str) -> Result<String, AllocError> {
    match literal_text(alloc, spelling)? {
        Some(text) => Ok(text),
        None => String::from_str(alloc, "no text"),
    }
}

// What Python 3.11 evaluates the same spellings to; none where the spelling isn't one text of this language.
#[test]
fn says_what_texts_say(rt: HostRuntime) -> Result<(), Fail> {
    let alloc = rt.alloc();
    let cases: [(&str, &str); 6] = [
        ("''", ""),
        (
            "'\\n\\r\\t\\a\\b\\f\\v\\\\\\'\\\"\\q\\{'",
            "\n\r\t\x07\x08\x0c\x0b\\'\"\\q\\{",
        ),
        ("\"\\x41\\xe9\\u20ac\\U0001f600é\\é{}\"", "Aé€😀é\\é{}"),
        ("'''a\\\nb''c\n'''", "ab''c\n"),
        ("R'\\n\\''", "\\n\\'"),
        ("r\"\"\"\"\\é\"\"\"", "\"\\é"),
    ];
    for (spelling, wanted) in cases {
        assert_eq!(rt; told(alloc, spelling)?.as_str(), wanted);
    }
    for spelling in [
        "",
        "a",
        "'a",
        "'' ''",
        "''''",
        "f''",
        "b''",
        "'\\ud800'",
        "'\\x4'",
    ] {
        assert_eq!(rt; told(alloc, spelling)?.as_str(), "no text");
    }
    Ok(())
}

// The spelling of a name with its place, of a number with the number.
fn put_kept(alloc: Global, text: &mut String, token: &Token) -> Result<(), AllocError> {
    text.push_str(token.spelling.items())?;
    if let Some(place) = token.spelling.place() {
        let place = format!(in alloc; ":{place}")?;
        text.push_str(place.as_str())?;
    }
    if let Some(number) = token.spelling.number() {
        let number = format!(in alloc; "={number}")?;
        text.push_str(number.as_str())?;
    }
    text.push_str(" ")
}

// The same of the tokens of its fields.
fn put_kept_inside(alloc: Global, text: &mut String, pieces: &Pieces) -> Result<(), AllocError> {
    for piece in pieces.items() {
        if let Piece::Field { tokens, .. } = piece {
            for token in tokens.items() {
                put_kept(alloc, text, token)?;
            }
        }
    }
    Ok(())
}

fn kept_in(alloc: Global, lines: &[LogicalLine]) -> Result<String, AllocError> {
    let mut text = String::new(alloc);
    for line in lines {
        for token in line.tokens.items() {
            put_kept(alloc, &mut text, token)?;
            if let TokenKind::FText(pieces) = &token.kind {
                put_kept_inside(alloc, &mut text, pieces)?;
            }
        }
    }
    Ok(text)
}

// Names have the places 0, 1, 2 .. in the order in which they are met, also in fields, which stand behind their f-text here.
#[test]
fn keeps_places_and_numbers(rt: HostRuntime) -> Result<(), Fail> {
    let alloc = rt.alloc();
    let file =
        b"def b(a):\n  c = f'{d} {a!r}{b[1_0]:>3}' + c.a\nb = 'a' * 0 == 12_000 != 170141183460469231731687303715884105727 or e\n";
    let Ok(lines) = lines(alloc, file) else {
        assert!(rt; false, "refused");
        return Ok(());
    };
    let wanted =
        "def:0 b:1 ( a:2 ) : c:3 = f'{d} {a!r}{b[1_0]:>3}' d:4 a:2 b:1 [ 1_0=10 ] + c:3 . a:2 b:1 = 'a' * 0=0 == 12_000=12000 != 170141183460469231731687303715884105727=170141183460469231731687303715884105727 or:5 e:6 ";
    assert_eq!(rt; kept_in(alloc, lines.as_slice())?.as_str(), wanted);
    Ok(())
}
