// `str` and `repr` of values.
ghost use Rattle.std.specs.Prelude.{◌≡◌, ◌++◌, OnOk, OnErr, map};
ghost use Rattle.std.specs.Fmt.{signed_decimal};
ghost use Rattle.py_value.specs.View.{data_of, all_of, pairs_of};
ghost use Rattle.py_value.specs.Texts.{truth_text, separator, tuple_end, items_text, pairs_text, params_text, spelling_of, spelling_of_pair, str_of, repr_of, element_text};

use crate::memory::Memory;
use crate::quotes::push_quoted;
use crate::texts::Text;
use crate::types::{Element, Value};
use std::alloc::Global;

/// Appends `repr` of the value. After `Memory` the text is as it was.
pub fn write_repr(alloc: Global, v: &Value, out: &mut Text) -> Result<(), Memory>
    ensures ok { OnOk result (out.new ≡ out.old ++ repr_of (data_of v.now)) }
    ensures err { OnErr result (out.new ≡ out.old) }
{
    let mut text = Text::new(alloc);
    push_repr(alloc, v, &mut text)?;
    out.push_str(text.items())
}

/// Appends `str` of the value. After `Memory` the text is as it was.
pub fn write_str(alloc: Global, v: &Value, out: &mut Text) -> Result<(), Memory>
    ensures ok { OnOk result (out.new ≡ out.old ++ str_of (data_of v.now)) }
    ensures err { OnErr result (out.new ≡ out.old) }
{
    let mut text = Text::new(alloc);
    push_text(alloc, v, &mut text)?;
    out.push_str(text.items())
}

/// Appends the text of the element, which is its `str` and its `repr`. After `Memory` the text is as it was.
pub fn write_element(alloc: Global, e: &Element, out: &mut Text) -> Result<(), Memory>
    ensures ok { OnOk result (out.new ≡ out.old ++ element_text e.now) }
    ensures err { OnErr result (out.new ≡ out.old) }
{
    let mut text = Text::new(alloc);
    push_element(alloc, e, &mut text)?;
    out.push_str(text.items())
}

// The text of a truth value.
fn truth_name(b: bool) -> &'static str
    ensures { result.now ≡ truth_text b }
{
    if b { "True" } else { "False" }
}

// What stands before the item of an index.
fn separator_at(index: usize) -> &'static str
    ensures { result.now ≡ separator index }
{
    if index == 0 { "" } else { ", " }
}

// What ends a tuple of so many items.
fn end_of_tuple(count: usize) -> &'static str
    ensures { result.now ≡ tuple_end count }
{
    if count == 1 { ",)" } else { ")" }
}

// Appends a whole number in decimal.
fn push_number(alloc: Global, number: i128, out: &mut Text) -> Result<(), Memory>
    ensures { OnOk result (out.new ≡ out.old ++ signed_decimal number) }
{
    let digits = number.to_string(alloc)?;
    out.push_str(digits.as_str())
}

// Appends `repr` of a value.
#[cycle(text)]
#[tactic(auto, using(crate::proofs::Levels::levels, crate::proofs::TextLevels::texts))]
fn push_repr(alloc: Global, v: &Value, out: &mut Text) -> Result<(), Memory>
    ensures { OnOk result (out.new ≡ out.old ++ repr_of (data_of v.now)) }
{
    match v {
        Value::None => out.push_str("None"),
        Value::Bool(b) => out.push_str(truth_name(*b)),
        Value::Int(n) => push_number(alloc, *n, out),
        Value::Text(t) => push_quoted(t.items(), out),
        Value::List(values) => {
            out.push_str("[")?;
            push_items(alloc, values.items(), out)?;
            out.push_str("]")
        }
        Value::Tuple(values) => {
            let items = values.items();
            out.push_str("(")?;
            push_items(alloc, items, out)?;
            out.push_str(end_of_tuple(items.len()))
        }
        Value::Dict(pairs) => {
            out.push_str("{")?;
            push_pairs(alloc, pairs.items(), out)?;
            out.push_str("}")
        }
        Value::Element(e) => push_element(alloc, e, out),
        Value::Html(t) => out.push_str(t.items()),
    }
}

// Appends `str` of a value.
#[cycle(text)]
#[tactic(auto, using(crate::proofs::Levels::levels, crate::proofs::TextLevels::texts))]
fn push_text(alloc: Global, v: &Value, out: &mut Text) -> Result<(), Memory>
    ensures { OnOk result (out.new ≡ out.old ++ str_of (data_of v.now)) }
{
    match v {
        Value::Text(t) => out.push_str(t.items()),
        _ => push_repr(alloc, v, out),
    }
}

// Appends the items of a list or a tuple.
#[cycle(text)]
#[tactic(auto, using(crate::proofs::Levels::levels, crate::proofs::TextLevels::texts))]
fn push_items(alloc: Global, items: &[Value], out: &mut Text) -> Result<(), Memory>
    ensures { OnOk result (out.new ≡ out.old ++ items_text (map spelling_of (all_of items.now))) }
{
    for (i, item) in items.iter().enumerate() {
        out.push_str(separator_at(i))?;
        push_repr(alloc, item, out)?;
    }
    Ok(())
}

// Appends the pairs of a dictionary.
#[cycle(text)]
#[tactic(auto, using(crate::proofs::Levels::levels, crate::proofs::TextLevels::texts))]
fn push_pairs(alloc: Global, pairs: &[(Value, Value)], out: &mut Text) -> Result<(), Memory>
    ensures { OnOk result
        (out.new ≡ out.old ++ pairs_text (map spelling_of_pair (pairs_of pairs.now))) }
{
    for (i, pair) in pairs.iter().enumerate() {
        out.push_str(separator_at(i))?;
        push_repr(alloc, &pair.0, out)?;
        out.push_str(": ")?;
        push_repr(alloc, &pair.1, out)?;
    }
    Ok(())
}

// Appends the parameters of an element, each after a space.
#[cycle(text)]
#[tactic(auto, using(crate::proofs::Levels::levels, crate::proofs::TextLevels::texts))]
fn push_params(alloc: Global, params: &[(Value, Value)], out: &mut Text) -> Result<(), Memory>
    ensures { OnOk result
        (out.new ≡ out.old ++ params_text (map spelling_of_pair (pairs_of params.now))) }
{
    for param in params {
        out.push_str(" ")?;
        push_text(alloc, &param.0, out)?;
        out.push_str("=")?;
        push_repr(alloc, &param.1, out)?;
    }
    Ok(())
}

// Appends an element.
#[cycle(text)]
#[tactic(auto, using(crate::proofs::Levels::levels, crate::proofs::TextLevels::texts))]
fn push_element(alloc: Global, e: &Element, out: &mut Text) -> Result<(), Memory>
    ensures { OnOk result (out.new ≡ out.old ++ element_text e.now) }
{
    out.push_str("<")?;
    out.push_str(e.kind().name())?;
    out.push_str(" ")?;
    out.push_str(e.name().items())?;
    push_params(alloc, e.params().items(), out)?;
    out.push_str(">")
}
