// What values elements admit.
ghost use Rattle.std.specs.Prelude.{◌≡◌, Some, None, IfErr, IfOk};
ghost use Rattle.py_value.specs.View.{data_of, value_of};
ghost use Rattle.py_value.specs.Elements.{admitted, admits_number, number_in, range_at};
ghost use Rattle.ui_elements.specs.NumberOrTruth.{IsNumberOrTruth};

use crate::params::number_in;
use crate::ranges::{is_in_range, range_at};
use py_value::{Element, Kind, Pairs, Value};
use std::alloc::Global;

/// Why a value isn't set.
#[derive(Clone, Copy, Debug, PartialEq, Eq)]
pub enum AdmitFault {
    /// The element doesn't admit the value.
    NotAllowed,
    /// Memory was wanting.
    Memory,
}

/// What the value of the element becomes when it is set to this one (marimo's documentation, "Inputs"). A slider asks for no memory.
pub fn admit(_alloc: Global, element: &Element, value: &Value) -> Result<Value, AdmitFault>
    ensures admitted { IfOk result
        (λ v. admitted element.now (data_of value.now) ≡ Some (data_of v)) }
    ensures refused { IfErr result
        (λ f. f ≡ AdmitFault.NotAllowed → admitted element.now (data_of value.now) ≡ None) }
    ensures memory { IsNumberOrTruth value.now → IfErr result (λ f. f ≡ AdmitFault.NotAllowed) }
{
    match element.kind() {
        Kind::Slider => admit_number(element.params(), value),
        _ => Err(AdmitFault::NotAllowed),
    }
}

// The number, where it is in the range of these parameters.
#[tactic(auto, using(crate::proofs::Keys::seen))]
fn admit_number(params: &Pairs, value: &Value) -> Result<Value, AdmitFault>
    ensures admitted { IfOk result
        (λ v. admits_number (range_at params.now) (number_in (value_of (data_of value.now)))
        ≡ Some (data_of v)) }
    ensures refused { IfErr result
        (λ f. (f ≡ AdmitFault.NotAllowed)
        × (admits_number (range_at params.now) (number_in (value_of (data_of value.now)))
        ≡ None)) }
{
    let (Some(range), Some(n)) = (range_at(params), number_in(value)) else {
        return Err(AdmitFault::NotAllowed);
    };
    if !is_in_range(range, n) {
        return Err(AdmitFault::NotAllowed);
    }
    Ok(Value::Int(n))
}
