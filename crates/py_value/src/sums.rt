// Sums, and the numbers that values count as.
ghost use Rattle.std.specs.Prelude.{◌≡◌};
ghost use Rattle.py_value.specs.Whole.{sum_of, number_of, joining_fault, bit};

use crate::op_fault::OpFault;
use crate::types::Value;

/// `left + right` (Python language reference, section 6.7), where True and False count as 1 and 0. It needs no memory.
/// `IntRange` where the sum is out of the range of whole numbers, `Subset` of two texts, lists or tuples, which aren't joined yet,
/// and else `WrongType`.
pub fn add(left: &Value, right: &Value) -> Result<Value, OpFault>
    ensures { result ≡ sum_of left.now right.now }
{
    match (number_of(left), number_of(right)) {
        (Some(x), Some(y)) => match x.checked_add(y) {
            Some(sum) => Ok(Value::Int(sum)),
            None => Err(OpFault::IntRange),
        },
        _ => Err(joining_fault(left, right)),
    }
}

// The number that a value counts as.
pub(crate) fn number_of(v: &Value) -> Option<i128>
    ensures { result ≡ number_of v.now }
{
    match v {
        Value::Bool(b) => Some(bit(*b)),
        Value::Int(n) => Some(*n),
        _ => None,
    }
}

// Why `+` refuses two operands that aren't both numbers.
fn joining_fault(left: &Value, right: &Value) -> OpFault
    ensures { result ≡ joining_fault left.now right.now }
{
    match (left, right) {
        (Value::Text(_), Value::Text(_)) => OpFault::Subset,
        (Value::List(_), Value::List(_)) => OpFault::Subset,
        (Value::Tuple(_), Value::Tuple(_)) => OpFault::Subset,
        _ => OpFault::WrongType,
    }
}

// The number that a truth value counts as.
pub(crate) fn bit(b: bool) -> i128
    ensures { result ≡ bit b }
{
    if b { 1 } else { 0 }
}
