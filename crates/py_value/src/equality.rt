// Python's equality.
ghost use Rattle.std.specs.Prelude.{◌≡◌, ◌==◌, ◌&&◌, length};
ghost use Rattle.py_value.specs.View.{data_of, all_of, pairs_of, pair_of};
ghost use Rattle.py_value.specs.Eq.{eq_of, each_eq, pairs_in, has_pair, number_eq};

use crate::sums::{bit, number_of};
use crate::types::Value;

// Whether two values are equal.
#[cycle(eq)]
#[tactic(auto, using(crate::proofs::Levels::levels, crate::proofs::Equals::equals))]
pub(crate) fn eq_value(a: &Value, b: &Value) -> bool
    ensures { result ≡ eq_of (data_of a.now) (data_of b.now) }
{
    match (a, b) {
        (Value::None, Value::None) => true,
        (Value::Bool(x), _) => number_eq(bit(*x), number_of(b)),
        (Value::Int(x), _) => number_eq(*x, number_of(b)),
        (Value::Text(x), Value::Text(y)) => x.same(y),
        (Value::List(x), Value::List(y)) => each_eq(x.items(), y.items()),
        (Value::Tuple(x), Value::Tuple(y)) => each_eq(x.items(), y.items()),
        (Value::Dict(x), Value::Dict(y)) => eq_pairs(x.items(), y.items()),
        _ => false,
    }
}

#[cycle(eq)]
#[tactic(auto, using(crate::proofs::Levels::levels, crate::proofs::Equals::equals))]
fn eq_pairs(a: &[(Value, Value)], b: &[(Value, Value)]) -> bool
    ensures { result
        ≡ ((length a.now == length b.now) && pairs_in (pairs_of a.now) (pairs_of b.now)) }
{
    a.len() == b.len() && pairs_in(a, b)
}

fn number_eq(n: i128, m: Option<i128>) -> bool
    ensures { result ≡ number_eq n m }
{
    match m {
        Some(m) => n == m,
        None => false,
    }
}

#[cycle(eq)]
#[tactic(auto, using(crate::proofs::Levels::levels, crate::proofs::Equals::equals))]
fn each_eq(a: &[Value], b: &[Value]) -> bool
    ensures { result ≡ each_eq (all_of a.now) (all_of b.now) }
{
    if a.len() != b.len() {
        return false;
    }
    let mut i = 0;
    while i < a.len() {
        if !eq_value(&a[i], &b[i]) {
            return false;
        }
        i += 1;
    }
    true
}

#[cycle(eq)]
#[tactic(auto, using(crate::proofs::Levels::levels, crate::proofs::Equals::equals))]
fn pairs_in(pairs: &[(Value, Value)], others: &[(Value, Value)]) -> bool
    ensures { result ≡ pairs_in (pairs_of pairs.now) (pairs_of others.now) }
{
    for pair in pairs {
        if !has_pair(pair, others) {
            return false;
        }
    }
    true
}

#[cycle(eq)]
#[tactic(auto, using(crate::proofs::Levels::levels, crate::proofs::Equals::equals))]
fn has_pair(pair: &(Value, Value), others: &[(Value, Value)]) -> bool
    ensures { result ≡ has_pair (pair_of pair.now) (pairs_of others.now) }
{
    for other in others {
        if eq_value(&pair.0, &other.0) && eq_value(&pair.1, &other.1) {
            return true;
        }
    }
    false
}
