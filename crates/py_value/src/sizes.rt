// How large a value is.
ghost use Rattle.std.specs.Prelude.{◌≡◌, ◌+◌, ◌/◌, length};
ghost use Rattle.py_value.specs.View.{data_of, all_of, pairs_of};
ghost use Rattle.py_value.specs.Size.{cap, size_of, size_of_all, size_of_pairs};

use crate::texts::Text;
use crate::types::Value;

/// How large a value is: 1, for texts and HTML 1 more for every 16 whole bytes, and for lists, tuples and dictionaries the sizes
/// of their parts more. An element counts 1. It stays at 2^64 - 1 where it would be more.
#[cycle(size)]
#[tactic(auto, using(crate::proofs::Levels::levels, crate::proofs::SizeLevels::sizes))]
pub fn size(v: &Value) -> u64
    ensures { result ≡ cap (size_of (data_of v.now)) }
{
    match v {
        Value::None => 1,
        Value::Bool(_) => 1,
        Value::Int(_) => 1,
        Value::Text(t) => size_of_text(t),
        Value::List(values) => size_of_all(values.items()).saturating_add(1),
        Value::Tuple(values) => size_of_all(values.items()).saturating_add(1),
        Value::Dict(pairs) => size_of_pairs(pairs.items()).saturating_add(1),
        Value::Element(_) => 1,
        Value::Html(t) => size_of_text(t),
    }
}

fn size_of_text(t: &Text) -> u64
    ensures { result ≡ cap (1 + length t.now / 16) }
{
    1 + t.items().len() as u64 / 16
}

#[cycle(size)]
#[tactic(auto, using(crate::proofs::Levels::levels, crate::proofs::SizeLevels::sizes))]
fn size_of_all(items: &[Value]) -> u64
    ensures { result ≡ cap (size_of_all (all_of items.now)) }
{
    let mut total: u64 = 0;
    for item in items {
        total = total.saturating_add(size(item));
    }
    total
}

#[cycle(size)]
#[tactic(auto, using(crate::proofs::Levels::levels, crate::proofs::SizeLevels::sizes))]
fn size_of_pairs(pairs: &[(Value, Value)]) -> u64
    ensures { result ≡ cap (size_of_pairs (pairs_of pairs.now)) }
{
    let mut total: u64 = 0;
    for pair in pairs {
        let both = size(&pair.0).saturating_add(size(&pair.1));
        total = total.saturating_add(both);
    }
    total
}
