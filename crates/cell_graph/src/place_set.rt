// Sets of places in the order: the cells that wait to run again.
ghost use Rattle.std.specs.Prelude.{◌≡◌, ℕ, ◌<◌, ◌||◌, Bool, IfOk, OnOk, length, filter};
ghost use Rattle.std.specs.List.{All, list_any};
ghost use Rattle.py_tree.specs.Names.{Name};
ghost use Rattle.cell_graph.specs.Places.{is_placed};
ghost use Rattle.cell_graph.specs.Readers.{cells_at};
ghost use Rattle.graph_meaning.specs.Graph.{numbers_from};

use crate::readers::Readers;
use py_value::{Memory, Text};
use std::alloc::Global;
use std::collections::BTreeSet;

// The places of the cells that reference one of the names.
pub(crate) fn reader_places(
    alloc: Global,
    readers: &Readers,
    places: &[u32],
    names: &[Text],
) -> Result<BTreeSet<u32>, Memory>
    requires cells { (x : Name) → All (λ c. c < length places.now) (cells_at readers.now x) }
    requires there { All (λ q. q < length places.now) places.now }
    ensures { IfOk result
        (λ pending. pending.keys
        ≡ filter (λ q. list_any
        (λ x. is_placed places.now (cells_at readers.now x) q) names.now)
        (numbers_from 0 places.now)) }
{
    let mut pending = BTreeSet::new(alloc);
    for name in names {
        if let Some(cells) = readers.get(name.items()) {
            add_places(&mut pending, places, cells.items())?;
        }
    }
    Ok(pending)
}

// Adds the places of these cells.
pub(crate) fn add_places(
    pending: &mut BTreeSet<u32>,
    places: &[u32],
    cells: &[u32],
) -> Result<(), Memory>
    requires cells { All (λ c. c < length places.now) cells.now }
    requires there { All (λ q. q < length places.now) places.now }
    ensures { OnOk result
        ((p : ℕ → Bool) → pending.old.keys ≡ filter p (numbers_from 0 places.now)
        → pending.new.keys
        ≡ filter (λ q. p q || is_placed places.now cells.now q) (numbers_from 0 places.now)) }
{
    for cell in cells {
        pending.insert(places[*cell as usize])?;
    }
    Ok(())
}
