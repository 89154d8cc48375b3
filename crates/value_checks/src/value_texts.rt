// Texts of values. What is wanted is what Python 3.11 writes for the same values. A value that is dropped where a call may fail has
// a case of its own in the proof for each type, so values are handed on at once.
use py_value::{
    Element, Kind, Memory, OpFault, Pairs, Text, Value, Values, copy, write_element, write_repr,
    write_str,
};
use std::alloc::Global;
use std::test::Fail;

// Drops the value, in a call of its own, for the same reason.
fn discard(_value: Value) {}

fn text_value(alloc: Global, of: &str) -> Result<Value, Memory> {
    Ok(Value::Text(Text::copied(alloc, of)?))
}

fn list(items: Vec<Value>) -> Value {
    Value::List(Values::of(items))
}

fn tuple(items: Vec<Value>) -> Value {
    Value::Tuple(Values::of(items))
}

// The items, and one after them.
fn and(items: Vec<Value>, item: Value) -> Result<Vec<Value>, Memory> {
    let mut items = items;
    items.push(item)?;
    Ok(items)
}

// The pairs, and one after them whose key is a text.
fn and_pair(alloc: Global, pairs: Pairs, key: &str, item: Value) -> Result<Pairs, OpFault> {
    let mut pairs = pairs;
    match text_value(alloc, key) {
        Ok(key) => pairs.put(alloc, key, item)?,
        Err(_) => discard(item),
    }
    Ok(pairs)
}

fn texts_of(alloc: Global, v: &Value) -> Result<Text, Memory> {
    let mut out = Text::new(alloc);
    write_repr(alloc, v, &mut out)?;
    out.push_str(" | ")?;
    write_str(alloc, v, &mut out)?;
    Ok(out)
}

// The value's `repr`, and its `str` after it.
pub fn texts(alloc: Global, v: Value) -> Result<Text, Memory> {
    let out = texts_of(alloc, &v);
    discard(v);
    out
}

// These texts of a copy of the value.
fn texts_of_copy(alloc: Global, v: Value) -> Result<Text, Memory> {
    let copied = copy(alloc, &v);
    discard(v);
    texts(alloc, copied?)
}

#[test]
fn writes_texts_and_numbers(rt: HostRuntime) -> Result<(), Fail> {
    let alloc = rt.alloc();
    for (of, wanted) in [
        ("", "''"),
        ("it's", "\"it's\""),
        ("a\"b", "'a\"b'"),
        ("it's \"x\"", "'it\\'s \"x\"'"),
        ("back\\slash", "'back\\\\slash'"),
        ("\n\r\t", "'\\n\\r\\t'"),
        ("\x00\x01\x1f \x7e\x7f", "'\\x00\\x01\\x1f ~\\x7f'"),
        ("é猫", "'é猫'"),
        ("\x1b[0m é' \x7f", "\"\\x1b[0m é' \\x7f\""),
    ] {
        let wanted = format!(in alloc; "{wanted} | {of}")?;
        assert_eq!(rt;
            texts(alloc, text_value(alloc, of)?)?.items(),
            wanted.as_str()
        );
    }
    for (number, wanted) in [
        (0, "0 | 0"),
        (-1, "-1 | -1"),
        (10, "10 | 10"),
        (
            i128::MIN,
            "-170141183460469231731687303715884105728 | -170141183460469231731687303715884105728",
        ),
        (
            i128::MAX,
            "170141183460469231731687303715884105727 | 170141183460469231731687303715884105727",
        ),
    ] {
        assert_eq!(rt; texts(alloc, Value::Int(number))?.items(), wanted);
    }
    Ok(())
}

#[test]
fn writes_lists_and_dictionaries(rt: HostRuntime) -> Result<(), Fail> {
    let alloc = rt.alloc();
    assert_eq!(rt; texts(alloc, list(Vec::new(alloc)))?.items(), "[] | []");
    assert_eq!(rt; texts(alloc, tuple(Vec::new(alloc)))?.items(), "() | ()");
    let one = and(Vec::new(alloc), Value::Int(1))?;
    let two = and(and(Vec::new(alloc), tuple(one))?, Value::Bool(true))?;
    let nested = and(and(Vec::new(alloc), list(two))?, text_value(alloc, "é'")?)?;
    let wanted = "([(1,), True], \"é'\", None, False) | ([(1,), True], \"é'\", None, False)";
    let nested = and(and(nested, Value::None)?, Value::Bool(false))?;
    assert_eq!(rt; texts_of_copy(alloc, tuple(nested))?.items(), wanted);

    assert_eq!(rt;
        texts(alloc, Value::Dict(Pairs::new(alloc)))?.items(),
        "{} | {}"
    );
    let inner = and_pair(alloc, Pairs::new(alloc), "a'", Value::Int(-2))?;
    let outer = and_pair(alloc, Pairs::new(alloc), "", Value::Dict(inner))?;
    let outer = and_pair(alloc, outer, "b\n", list(Vec::new(alloc)))?;
    let wanted = "{'': {\"a'\": -2}, 'b\\n': []} | {'': {\"a'\": -2}, 'b\\n': []}";
    assert_eq!(rt; texts_of_copy(alloc, Value::Dict(outer))?.items(), wanted);
    Ok(())
}

// The form of elements and of HTML is this language's own, and Python has none.
#[test]
fn writes_elements_and_html(rt: HostRuntime) -> Result<(), Fail> {
    let alloc = rt.alloc();
    let params = and_pair(alloc, Pairs::new(alloc), "rows", Value::Int(3))?;
    let params = and_pair(alloc, params, "label", text_value(alloc, "it's")?)?;
    let name = Text::copied(alloc, "t")?;
    let e = Element::new(
        alloc,
        Kind::TextArea,
        name,
        params,
        Value::None,
        Value::None,
    )?;
    let mut out = Text::new(alloc);
    out.push_str("is ")?;
    write_element(alloc, &e, &mut out)?;
    assert_eq!(rt; out.items(), "is <text_area t rows=3 label=\"it's\">");
    let wanted = "<text_area t rows=3 label=\"it's\"> | <text_area t rows=3 label=\"it's\">";
    assert_eq!(rt; texts_of_copy(alloc, Value::Element(e))?.items(), wanted);

    let html = Value::Html(Text::copied(alloc, "<b>it's</b>")?);
    assert_eq!(rt; texts(alloc, html)?.items(), "<b>it's</b> | <b>it's</b>");
    Ok(())
}
