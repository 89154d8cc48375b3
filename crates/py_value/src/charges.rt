// What operations are charged for their operands.
ghost use Rattle.std.specs.Prelude.{◌≡◌};
ghost use Rattle.py_value.specs.Size.{cap, charge_step, charge_of, size_of};
ghost use Rattle.py_value.specs.View.{data_of};

use crate::sizes::size;
use crate::types::Value;

/// The steps that an operation is charged for these operands: the sizes of texts, lists, tuples, dictionaries and Html; 2^64 - 1
/// where they are more.
#[tactic(auto, using(crate::proofs::SizeLevels::charges_more))]
pub fn operand_charge(operands: &[Value]) -> u64
    ensures { result ≡ charge_of operands.now }
{
    let mut charge: u64 = 0;
    for operand in operands {
        charge = charge.saturating_add(charge_for(operand));
    }
    charge
}

// The steps for one operand.
fn charge_for(operand: &Value) -> u64
    ensures { result ≡ cap (charge_step operand.now (size_of (data_of operand.now))) }
{
    match operand {
        Value::None | Value::Bool(_) | Value::Int(_) | Value::Element(_) => 0,
        _ => size(operand),
    }
}
