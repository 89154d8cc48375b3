// The order in which cells run.
ghost use Rattle.std.specs.Prelude.{◌≡◌, ◌^◌, ◌<◌, List, IfOk, length};
ghost use Rattle.cell_graph.specs.Counts.{AreWithin, IsTranspose};
ghost use Rattle.cell_graph.specs.Tables.{AreParents};
ghost use Rattle.graph_meaning.specs.Graph.{order};
ghost use Rattle.py_tree.specs.Trees.{Cell};

use crate::cell_list::CellList;
use crate::parent_counts::{parent_counts, release, roots};
use py_value::Memory;
use std::alloc::Global;

// The order of the cells that have these parents and these children. Each cell is looked at once for each of its parents, and once as it is listed.
pub(crate) fn order_of(
    alloc: Global,
    parents: &[CellList],
    children: &[CellList],
) -> Result<Vec<u32>, Memory>
    requires few { length parents.now < 2 ^ 32 }
    requires within { AreWithin parents.now }
    requires turned { IsTranspose parents.now children.now }
    ensures { IfOk result
        (λ listed. (nb : List Cell) → AreParents nb parents.now → listed.items ≡ order nb) }
{
    let mut counts = parent_counts(alloc, parents)?;
    let mut ready = roots(alloc, counts.as_slice())?;
    let mut listed = Vec::new(alloc);
    for _ in 0..parents.len() {
        if let Some(cell) = ready.pop_first() {
            listed.push(cell)?;
            release(
                counts.as_mut_slice(),
                &mut ready,
                children[cell as usize].items(),
            )?;
        }
    }
    Ok(listed)
}
