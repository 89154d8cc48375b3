// The children of cells, found from their parents.
ghost use Rattle.std.specs.Prelude.{◌≡◌, ℕ, ◌+◌, ◌^◌, ◌<◌, ◌==◌, [], IfOk, OnOk, length, if◌then◌else◌, replicate};
ghost use Rattle.std.specs.List.{All};
ghost use Rattle.cell_graph.specs.Counts.{list_in, count_of, AreWithin, IsTranspose};

use crate::cell_list::CellList;
use py_value::Memory;
use std::alloc::Global;

// For each cell the cells of which it is a parent.
pub(crate) fn all_children(alloc: Global, parents: &[CellList]) -> Result<Vec<CellList>, Memory>
    requires few { length parents.now < 2 ^ 32 }
    requires within { AreWithin parents.now }
    ensures { IfOk result (λ children. IsTranspose parents.now children.items) }
{
    let mut children = empty_lists(alloc, parents.len())?;
    for cell in 0..parents.len() {
        add_child(children.as_mut_slice(), parents[cell].items(), cell as u32)?;
    }
    Ok(children)
}

// So many lists with no cells.
fn empty_lists(alloc: Global, count: usize) -> Result<Vec<CellList>, Memory>
    ensures { IfOk result (λ lists. lists.items ≡ replicate count []) }
{
    let mut lists = Vec::new(alloc);
    for _ in 0..count {
        lists.push(CellList::of(Vec::new(alloc)))?;
    }
    Ok(lists)
}

// Adds a child to each of its parents.
fn add_child(children: &mut [CellList], parents: &[u32], child: u32) -> Result<(), Memory>
    requires { All (λ p. p < length children.old) parents.now }
    ensures { OnOk result
        ((a d : ℕ) → count_of d (list_in children.new a)
        ≡ count_of d (list_in children.old a) + (if child == d then count_of a parents.now else 0)) }
{
    for parent in parents {
        children[*parent as usize].push(child)?;
    }
    Ok(())
}
