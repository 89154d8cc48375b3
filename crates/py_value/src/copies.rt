// A copy of a value.
ghost use Rattle.std.specs.Prelude.{◌≡◌, IfOk};

use crate::memory::Memory;
use crate::types::{Element, Pairs, Value, Values};
use std::alloc::Global;

/// A copy of a value.
#[cycle(copy)]
#[tactic(auto, using(crate::proofs::Levels::levels))]
pub fn copy(alloc: Global, v: &Value) -> Result<Value, Memory>
    ensures { IfOk result (λ c. c ≡ v.now) }
{
    match v {
        Value::None => Ok(Value::None),
        Value::Bool(b) => Ok(Value::Bool(*b)),
        Value::Int(n) => Ok(Value::Int(*n)),
        Value::Text(t) => Ok(Value::Text(t.copy(alloc)?)),
        Value::List(items) => Ok(Value::List(copy_values(alloc, items)?)),
        Value::Tuple(items) => Ok(Value::Tuple(copy_values(alloc, items)?)),
        Value::Dict(pairs) => Ok(Value::Dict(copy_pairs(alloc, pairs)?)),
        Value::Element(e) => Ok(Value::Element(copy_element(alloc, e)?)),
        Value::Html(t) => Ok(Value::Html(t.copy(alloc)?)),
    }
}

#[cycle(copy)]
#[tactic(auto, using(crate::proofs::Levels::levels))]
fn copy_values(alloc: Global, values: &Values) -> Result<Values, Memory>
    ensures { IfOk result (λ c. c ≡ values.now) }
{
    let from = values.items();
    let mut out = Vec::new(alloc);
    for value in from {
        out.push(copy(alloc, value)?)?;
    }
    Ok(Values::of(out))
}

#[cycle(copy)]
#[tactic(auto, using(crate::proofs::Levels::levels))]
fn copy_pairs(alloc: Global, pairs: &Pairs) -> Result<Pairs, Memory>
    ensures { IfOk result (λ c. c ≡ pairs.now) }
{
    let from = pairs.keyed_items();
    let mut out = Vec::new(alloc);
    for pair in from {
        let key = copy(alloc, &pair.0)?;
        let item = copy(alloc, &pair.1)?;
        out.push((key, item))?;
    }
    Ok(Pairs::of(out))
}

#[cycle(copy)]
#[tactic(auto, using(crate::proofs::Levels::levels))]
fn copy_element(alloc: Global, e: &Element) -> Result<Element, Memory>
    ensures { IfOk result (λ c. c ≡ e.now) }
{
    let name = e.name().copy(alloc)?;
    let params = copy_pairs(alloc, e.params())?;
    let initial = copy(alloc, e.initial())?;
    let present = copy(alloc, e.present())?;
    Element::new(alloc, e.kind(), name, params, initial, present)
}
