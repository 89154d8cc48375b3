// The places of cells in their order.
ghost use Rattle.std.specs.Prelude.{◌≡◌, ℕ, ◌^◌, ◌<◌, IfOk, length, nat_eq, slice_index};
ghost use Rattle.std.specs.List.{All, IsDistinct};

use py_value::Memory;
use std::alloc::Global;

// The place of each cell in the order.
pub(crate) fn places_of(alloc: Global, order: &[u32]) -> Result<Vec<u32>, Memory>
    requires few { length order.now < 2 ^ 32 }
    requires within { All (λ c. c < length order.now) order.now }
    requires once { IsDistinct nat_eq order.now }
    ensures count { IfOk result (λ places. length places.items ≡ length order.now) }
    ensures each { IfOk result
        (λ places. (q : ℕ) → q < length order.now
        → slice_index places.items (slice_index order.now q) ≡ q) }
{
    let mut places = Vec::from_elem(alloc, 0, order.len())?;
    for place in 0..order.len() {
        places[order[place] as usize] = place as u32;
    }
    Ok(places)
}
