// Why a value can't be a key.
ghost use Rattle.std.specs.Prelude.{◌≡◌};
ghost use Rattle.py_value.specs.View.{data_of, all_of};
ghost use Rattle.py_value.specs.Keys.{key_fault, key_fault_of_all};

use crate::op_fault::OpFault;
use crate::types::Value;

// Why a value can't be a key. None where it may be one.
#[cycle(key)]
#[tactic(auto, using(crate::proofs::Levels::levels, crate::proofs::KeyFaults::key_faults))]
pub(crate) fn key_fault(v: &Value) -> Option<OpFault>
    ensures { result ≡ key_fault (data_of v.now) }
{
    match v {
        Value::None => None,
        Value::Bool(_) => None,
        Value::Int(_) => None,
        Value::Text(_) => None,
        Value::List(_) => Some(OpFault::WrongType),
        Value::Tuple(values) => key_fault_of_all(values.items()),
        Value::Dict(_) => Some(OpFault::WrongType),
        Value::Element(_) => Some(OpFault::Subset),
        Value::Html(_) => Some(OpFault::Subset),
    }
}

#[cycle(key)]
#[tactic(auto, using(crate::proofs::Levels::levels, crate::proofs::KeyFaults::key_faults))]
fn key_fault_of_all(items: &[Value]) -> Option<OpFault>
    ensures { result ≡ key_fault_of_all (all_of items.now) }
{
    for item in items {
        if let Some(fault) = key_fault(item) {
            return Some(fault);
        }
    }
    None
}
