// How many parents of each cell aren't listed yet.
ghost use Rattle.std.specs.Prelude.{◌≡◌, ℕ, ◌+◌, ◌^◌, ◌<◌, ◌≤◌, ◌==◌, ◌&&◌, ◌||◌, Bool, IfOk, OnOk, length, filter, map, slice_index};
ghost use Rattle.std.specs.List.{All};
ghost use Rattle.cell_graph.specs.Counts.{count_of};
ghost use Rattle.graph_meaning.specs.Graph.{numbers_from, is_in};

use crate::cell_list::CellList;
use py_value::Memory;
use std::alloc::Global;
use std::collections::BTreeSet;

// How many parents each cell has.
pub(crate) fn parent_counts(alloc: Global, parents: &[CellList]) -> Result<Vec<usize>, Memory>
    ensures { IfOk result (λ counts. counts.items ≡ map length parents.now) }
{
    let mut counts = Vec::new(alloc);
    for cells in parents {
        counts.push(cells.items().len())?;
    }
    Ok(counts)
}

// The cells that have no parents.
pub(crate) fn roots(alloc: Global, counts: &[usize]) -> Result<BTreeSet<u32>, Memory>
    requires { length counts.now < 2 ^ 32 }
    ensures { IfOk result
        (λ ready. ready.keys
        ≡ filter (λ c. slice_index counts.now c == 0) (numbers_from 0 counts.now)) }
{
    let mut ready = BTreeSet::new(alloc);
    for cell in 0..counts.len() {
        if counts[cell] == 0 {
            ready.insert(cell as u32)?;
        }
    }
    Ok(ready)
}

// Takes a listed parent away from these cells. Those that wait for none then are ready.
pub(crate) fn release(
    counts: &mut [usize],
    ready: &mut BTreeSet<u32>,
    children: &[u32],
) -> Result<(), Memory>
    requires within { All (λ c. c < length counts.old) children.now }
    requires enough { (c : ℕ) → count_of c children.now ≤ slice_index counts.old c }
    ensures counts { OnOk result
        ((c : ℕ) → slice_index counts.new c + count_of c children.now ≡ slice_index counts.old c) }
    ensures ready { OnOk result
        ((p : ℕ → Bool) → ready.old.keys ≡ filter p (numbers_from 0 counts.old)
        → ready.new.keys
        ≡ filter (λ c. p c || (is_in c children.now && (slice_index counts.new c == 0)))
        (numbers_from 0 counts.old)) }
{
    for child in children {
        counts[*child as usize] -= 1;
        if counts[*child as usize] == 0 {
            ready.insert(*child)?;
        }
    }
    Ok(())
}
