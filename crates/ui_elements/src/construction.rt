// What calls of elements make.
ghost use Rattle.std.specs.Prelude.{◌≡◌, ◌⊎◌, Some, Ok, Err, IfErr, IfOk};
ghost use Rattle.py_value.specs.Elements.{made, slider_of, params_of_call};
ghost use Rattle.ui_elements.specs.Calls.{arguments_of};

use crate::args::Args;
use crate::call_params::params_of_call;
use crate::parameters::SLIDER;
use crate::params::{has_text, number_at};
use crate::ranges::{is_in_range, range_at};
use py_value::{Element, Kind, OpFault, Pairs, Text, Value};
use std::alloc::Global;

/// The element that a call of this kind makes, at its initial value (marimo's documentation, "Inputs"). Wrong, wanting or repeated
/// arguments and wrong types are `WrongType`, then wrong values `Value`. Kinds that aren't built yet are `Subset`.
pub fn make(alloc: Global, kind: Kind, name: &Text, args: &Args) -> Result<Element, OpFault>
    ensures ok { IfOk result (λ e. made kind name.now (arguments_of args.now) ≡ Ok e) }
    ensures fault { IfErr result
        (λ f. (f ≡ OpFault.Memory) ⊎ (made kind name.now (arguments_of args.now) ≡ Err f)) }
{
    match kind {
        Kind::Slider => slider(alloc, name, params_of_call(alloc, &SLIDER, args)?),
        _ => Err(OpFault::Subset),
    }
}

// The slider of these parameters.
fn slider(alloc: Global, name: &Text, params: Pairs) -> Result<Element, OpFault>
    ensures ok { IfOk result (λ e. slider_of name.now (Some params) ≡ Ok e) }
    ensures fault { IfErr result
        (λ f. (f ≡ OpFault.Memory) ⊎ (slider_of name.now (Some params) ≡ Err f)) }
{
    let (Some(range), Some(initial)) = (range_at(&params), number_at(&params, "value")) else {
        return Err(OpFault::WrongType);
    };
    if !has_text(&params, "label") {
        return Err(OpFault::WrongType);
    }
    if !is_in_range(range, initial) {
        return Err(OpFault::Value);
    }
    let name = name.copy(alloc)?;
    let (initial, present) = (Value::Int(initial), Value::Int(initial));
    Ok(Element::new(alloc, Kind::Slider, name, params, initial, present)?)
}
