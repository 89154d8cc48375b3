// Messages, read by the code.
use crate::{MessageFault, read_message};
use messages::Message;
use py_value::{Memory, Text, write_repr};
use std::alloc::Global;
use std::test::Fail;

// What a text says: `open`, `close`, `none`, or the names that it sets, each with its value or `?`.
fn shown(alloc: Global, bytes: &[u8]) -> Result<Text, Memory> {
    let mut out = Text::new(alloc);
    match read_message(alloc, bytes) {
        Ok(Message::Open) => out.push_str("open")?,
        Ok(Message::Close) => out.push_str("close")?,
        Ok(Message::Set(items)) => {
            out.push_str("set")?;
            for item in items.items() {
                out.push_str(" ")?;
                out.push_str(item.name.items())?;
                out.push_str("=")?;
                match &item.value {
                    Some(value) => write_repr(alloc, value, &mut out)?,
                    None => out.push_str("?")?,
                }
            }
        }
        Err(MessageFault::NotMessage) => out.push_str("none")?,
        Err(MessageFault::Memory) => return Err(Memory),
    }
    Ok(out)
}

#[test]
fn reads_messages(rt: HostRuntime) -> Result<(), Fail> {
    let cases: [(&str, &str); 26] = [
        (" {\"open\"\t:\r\n{ } } ", "open"),
        (r#"{"close":{}}"#, "close"),
        (r#"{"set":{}}"#, "set"),
        (r#"{"set":{"b":1,"a":null}}"#, "set a=None b=1"),
        (r#"{"set":{"b":1,"a":2,"b":false}}"#, "set a=2 b=False"),
        (r#"{"open":{},"open":{}}"#, "open"),
        (r#"{"set":5,"set":{}}"#, "set"),
        (r#"{"open":{},"close":{}}"#, "none"),
        (
            r#"{"set":{"a":18446744073709551615,"b":18446744073709551616}}"#,
            "set a=18446744073709551615 b=?",
        ),
        (
            r#"{"set":{"a":-9223372036854775808,"b":-9223372036854775809}}"#,
            "set a=-9223372036854775808 b=?",
        ),
        (
            r#"{"set":{"a":-0,"b":1.0,"c":1e2,"d":0}}"#,
            "set a=? b=? c=? d=0",
        ),
        (
            r#"{"set":{"a":["x",["y"]],"b":["x","y"],"c":[],"d":["x",1]}}"#,
            "set a=? b=['x', 'y'] c=[] d=?",
        ),
        (r#"{"set":{"":"","a":{"b":1}}}"#, "set ='' a=?"),
        (r#"{"set":{"a":"\ud800"}}"#, "none"),
        (r#"{"set":{"a":"\ud83d\ude00"}}"#, "set a='😀'"),
        (r#"{"set":{"a":1e400}}"#, "none"),
        (r#"{"set":{"a":04}}"#, "none"),
        (r#"{"open":{}}x"#, "none"),
        (r#"{"open":{}}{}"#, "none"),
        (r#"{"open":{},}"#, "none"),
        (r#"{"open":[]}"#, "none"),
        (r#"["open"]"#, "none"),
        ("", "none"),
        ("{}", "none"),
        (r#"{"s\u0065t":{"é":"\u00e9"}}"#, "set é='é'"),
        ("\u{feff}{\"open\":{}}", "none"),
    ];
    for (text, want) in cases {
        let got = shown(rt.alloc(), text.as_bytes())?;
        assert_eq!(rt; got.items(), want);
    }
    let got = shown(rt.alloc(), b"{\"set\":{\"a\":\"\xff\"}}")?;
    assert_eq!(rt; got.items(), "none");
    Ok(())
}

// The opening with so many blanks behind it.
fn padded(alloc: Global, blanks: usize) -> Result<Text, Memory> {
    let mut text: Vec<u8> = Vec::new(alloc);
    text.extend_from_slice(b"{\"open\":{}}")?;
    for _ in 0..blanks {
        text.push(b' ')?;
    }
    shown(alloc, text.as_slice())
}

// A list in lists, so many of them.
fn nested(alloc: Global, lists: usize) -> Result<Text, Memory> {
    let mut text: Vec<u8> = Vec::new(alloc);
    text.extend_from_slice(b"{\"set\":{\"a\":")?;
    for _ in 0..lists {
        text.push(b'[')?;
    }
    for _ in 0..lists {
        text.push(b']')?;
    }
    text.extend_from_slice(b"}}")?;
    shown(alloc, text.as_slice())
}

#[test]
fn keeps_its_limits(rt: HostRuntime) -> Result<(), Fail> {
    let alloc = rt.alloc();
    assert_eq!(rt; padded(alloc, 65_525)?.items(), "open");
    assert_eq!(rt; padded(alloc, 65_526)?.items(), "none");
    assert_eq!(rt; nested(alloc, 125)?.items(), "set a=?");
    assert_eq!(rt; nested(alloc, 126)?.items(), "none");
    Ok(())
}
