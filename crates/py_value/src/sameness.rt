// Whether two values are the same.
ghost use Rattle.std.specs.Prelude.{◌≡◌, ◌↔◌, IsTrue};

use crate::types::{Element, Value};

/// Whether two values are the same, to the last part: True isn't the same as 1, and dictionaries have the same pairs in the same order.
/// Python's `==` is another relation.
#[cycle(same)]
#[tactic(auto, using(crate::proofs::Levels::levels))]
pub fn same(a: &Value, b: &Value) -> bool
    ensures { IsTrue result ↔ (a.now ≡ b.now) }
{
    match (a, b) {
        (Value::None, Value::None) => true,
        (Value::Bool(x), Value::Bool(y)) => x == y,
        (Value::Int(x), Value::Int(y)) => x == y,
        (Value::Text(x), Value::Text(y)) => x.same(y),
        (Value::List(x), Value::List(y)) => same_all(x.items(), y.items()),
        (Value::Tuple(x), Value::Tuple(y)) => same_all(x.items(), y.items()),
        (Value::Dict(x), Value::Dict(y)) => same_pairs(x.items(), y.items()),
        (Value::Element(x), Value::Element(y)) => same_element(x, y),
        (Value::Html(x), Value::Html(y)) => x.same(y),
        _ => false,
    }
}

#[cycle(same)]
#[tactic(auto, using(crate::proofs::Levels::levels))]
fn same_element(a: &Element, b: &Element) -> bool
    ensures { IsTrue result ↔ (a.now ≡ b.now) }
{
    if a.kind() != b.kind() || !a.name().same(b.name()) {
        return false;
    }
    if !same_pairs(a.params().items(), b.params().items()) {
        return false;
    }
    if !same(a.initial(), b.initial()) {
        return false;
    }
    same(a.present(), b.present())
}

#[cycle(same)]
#[tactic(auto, using(crate::proofs::Levels::levels))]
fn same_all(a: &[Value], b: &[Value]) -> bool
    ensures { IsTrue result ↔ (a.now ≡ b.now) }
{
    if a.len() != b.len() {
        return false;
    }
    let mut i = 0;
    while i < a.len() {
        if !same(&a[i], &b[i]) {
            return false;
        }
        i += 1;
    }
    true
}

#[cycle(same)]
#[tactic(auto, using(crate::proofs::Levels::levels))]
fn same_pairs(a: &[(Value, Value)], b: &[(Value, Value)]) -> bool
    ensures { IsTrue result ↔ (a.now ≡ b.now) }
{
    if a.len() != b.len() {
        return false;
    }
    let mut i = 0;
    while i < a.len() {
        if !same(&a[i].0, &b[i].0) || !same(&a[i].1, &b[i].1) {
            return false;
        }
        i += 1;
    }
    true
}
