// The cells that lie on a cycle.
ghost use Rattle.std.specs.Prelude.{◌≡◌, ℕ, ◌+◌, ◌^◌, ◌<◌, ◌&&◌, ◌||◌, not, true, false, List, IfOk, OnOk, length};
ghost use Rattle.std.specs.List.{All, count_by};
ghost use Rattle.cell_graph.specs.Counts.{AreWithin};
ghost use Rattle.cell_graph.specs.Tables.{AreParents};
ghost use Rattle.cell_graph.specs.Marks.{is_marked};
ghost use Rattle.graph_meaning.specs.Graph.{is_in, LiesOnCycle, AreCyclic};
ghost use Rattle.py_tree.specs.Trees.{Cell};

use crate::cell_list::CellList;
use py_value::Memory;
use std::alloc::Global;

// The cells that lie on a cycle, in file order. For each cell those above it are looked at once, with their parents.
pub(crate) fn cyclic_cells(alloc: Global, parents: &[CellList]) -> Result<CellList, Memory>
    requires few { length parents.now < 2 ^ 32 }
    requires within { AreWithin parents.now }
    ensures { IfOk result
        (λ cells. (nb : List Cell) → AreParents nb parents.now → AreCyclic nb cells) }
{
    let mut cells = Vec::new(alloc);
    for cell in 0..parents.len() {
        if lies_on_cycle(alloc, parents, cell as u32)? {
            cells.push(cell as u32)?;
        }
    }
    Ok(CellList::of(cells))
}

// Marks those of these cells that aren't marked yet, and adds them to those to look at.
fn mark(marked: &mut [bool], pending: &mut Vec<u32>, cells: &[u32]) -> Result<(), Memory>
    requires { All (λ c. c < length marked.old) cells.now }
    ensures marks { OnOk result
        ((c : ℕ) → is_marked marked.new c ≡ (is_marked marked.old c || is_in c cells.now)) }
    ensures added { OnOk result
        ((c : ℕ) → is_in c pending.new.items
        ≡ (is_in c pending.old.items || (is_in c cells.now && not (is_marked marked.old c)))) }
    ensures counted { OnOk result
        (count_by not marked.new + length pending.new.items
        ≡ count_by not marked.old + length pending.old.items) }
{
    for cell in cells {
        if !marked[*cell as usize] {
            marked[*cell as usize] = true;
            pending.push(*cell)?;
        }
    }
    Ok(())
}

// Whether the cell lies on a cycle: its parents, their parents and so on are marked, and each of them is looked at once.
fn lies_on_cycle(alloc: Global, parents: &[CellList], cell: u32) -> Result<bool, Memory>
    requires within { AreWithin parents.now }
    requires there { cell < length parents.now }
    ensures on { IfOk result
        (λ lies. (nb : List Cell) → AreParents nb parents.now → lies ≡ true → LiesOnCycle nb cell) }
    ensures off { IfOk result
        (λ lies. (nb : List Cell) → AreParents nb parents.now → lies ≡ false → LiesOnCycle nb cell
        → ⊥) }
{
    let mut marked = Vec::from_elem(alloc, false, parents.len())?;
    let mut pending = Vec::new(alloc);
    mark(
        marked.as_mut_slice(),
        &mut pending,
        parents[cell as usize].items(),
    )?;
    while let Some(ancestor) = pending.pop() {
        mark(
            marked.as_mut_slice(),
            &mut pending,
            parents[ancestor as usize].items(),
        )?;
    }
    Ok(marked[cell as usize])
}
