// The parents of cells.
ghost use Rattle.std.specs.Prelude.{◌≡◌, ◌^◌, ◌<◌, List, IfOk, IfErr, length};
ghost use Rattle.py_tree.specs.Names.{Name};
ghost use Rattle.py_tree.specs.Trees.{Cell};
ghost use Rattle.cell_graph.specs.Definers.{list_at, lists_with, FindsLists};
ghost use Rattle.cell_graph.specs.Tables.{AreDefs, AreRefs, AreParents};
ghost use Rattle.cell_graph.specs.Causes.{IsCauseOf};
ghost use Rattle.graph_meaning.specs.Graph.{NoneDoubled};

use crate::cell_list::CellList;
use crate::definers::{Definers, definers};
use crate::fault::GraphFault;
use py_value::{Lines, Memory, Text};
use std::alloc::Global;
use std::collections::BTreeSet;

// The parents of each cell, where no name is defined in two cells.
pub(crate) fn all_parents(
    alloc: Global,
    defs: &[Lines],
    refs: &[Lines],
) -> Result<Vec<CellList>, GraphFault>
    requires { length defs.now < 2 ^ 32 }
    ensures parents { IfOk result
        (λ parents. (nb : List Cell) → AreDefs nb defs.now → AreRefs nb refs.now
        → AreParents nb parents.items) }
    ensures once { IfOk result
        (λ parents. (nb : List Cell) → AreDefs nb defs.now → NoneDoubled nb) }
    ensures refused { IfErr result
        (λ e. (nb : List Cell) → AreDefs nb defs.now → IsCauseOf e nb) }
{
    let table = definers(alloc, defs)?;
    let mut parents = Vec::new(alloc);
    for names in refs {
        parents.push(parents_of(alloc, &table, names.items())?)?;
    }
    Ok(parents)
}

// The cells that define one of these names, in file order.
fn parents_of(alloc: Global, table: &Definers, names: &[Text]) -> Result<CellList, Memory>
    ensures { IfOk result
        (λ cells. (lists : List (List Name)) → FindsLists lists (list_at table.now)
        → cells ≡ lists_with lists names.now) }
{
    let mut cells = BTreeSet::new(alloc);
    for name in names {
        if let Some(cell) = table.get(name.items()) {
            cells.insert(*cell)?;
        }
    }
    list_of(alloc, &cells)
}

// The cells of a set, ascending.
fn list_of(alloc: Global, cells: &BTreeSet<u32>) -> Result<CellList, Memory>
    ensures { IfOk result (λ list. list ≡ cells.now.keys) }
{
    // `collect` would ask for more room than is needed, and go on where that is refused.
    let mut list = Vec::new(alloc);
    for cell in cells {
        list.push(*cell)?;
    }
    Ok(CellList::of(list))
}
