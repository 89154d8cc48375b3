// The parameters that stand in an element.
ghost use Rattle.std.specs.Prelude.{◌≡◌, IfErr, OnOk, option_copied};
ghost use Rattle.std.specs.Option.{option_map};
ghost use Rattle.py_value.specs.View.{data_of};
ghost use Rattle.py_value.specs.Dicts.{with_pair};
ghost use Rattle.py_value.specs.Eq.{eq_of};
ghost use Rattle.py_value.specs.Elements.{has_text, is_text, number_at, number_in, param};
ghost use Rattle.py_value.specs.declared.types.Data.TheVariants as D;

use py_value::{OpFault, Pairs, Text, Value};
use std::alloc::Global;

/// What the parameter of this name is.
#[tactic(auto, using(crate::proofs::Keys::keys))]
pub fn param<'a>(params: &'a Pairs, name: &str) -> Option<&'a Value>
    ensures { option_map data_of (option_copied result) ≡ param name.now params.now }
{
    let pairs = params.items();
    for pair in pairs {
        if is_key(name, &pair.0) {
            return Some(&pair.1);
        }
    }
    None
}

/// The number that the parameter of this name is.
#[tactic(auto, using(crate::proofs::Keys::seen))]
pub fn number_at(params: &Pairs, name: &str) -> Option<i128>
    ensures { result ≡ number_at name.now params.now }
{
    match param(params, name) {
        Some(value) => number_in(value),
        None => None,
    }
}

/// The number that a value is, which a truth value isn't here.
pub fn number_in(value: &Value) -> Option<i128>
    ensures { result ≡ number_in value.now }
{
    match value {
        Value::Int(n) => Some(*n),
        _ => None,
    }
}

/// The parameter of this name is a text.
#[tactic(auto, using(crate::proofs::Keys::seen))]
pub fn has_text(params: &Pairs, name: &str) -> bool
    ensures { result ≡ has_text (param name.now params.now) }
{
    match param(params, name) {
        Some(value) => is_text(value),
        None => false,
    }
}

/// Sets one parameter.
#[tactic(auto, using(crate::proofs::Keys::keys))]
pub fn set_param(alloc: Global, params: &mut Pairs, name: &str, value: Value) -> Result<(), OpFault>
    ensures ok { OnOk result (params.new ≡ with_pair (D.Text name.now) (data_of value) params.old) }
    ensures fault { IfErr result (λ f. f ≡ OpFault.Memory) }
{
    let name = Text::copied(alloc, name)?;
    params.put(alloc, Value::Text(name), value)
}

// The key is this name.
#[tactic(auto, using(crate::proofs::Keys::keys))]
fn is_key(name: &str, key: &Value) -> bool
    ensures { result ≡ eq_of (D.Text name.now) (data_of key.now) }
{
    match key {
        Value::Text(text) => name == text.items(),
        _ => false,
    }
}

fn is_text(value: &Value) -> bool
    ensures { result ≡ is_text value.now }
{
    matches!(value, Value::Text(_))
}
