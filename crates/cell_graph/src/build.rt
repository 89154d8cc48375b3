// A notebook built of cells.
ghost use Rattle.std.specs.Prelude.{◌≡◌, ◌^◌, ◌<◌, IfOk, IfErr, length};
ghost use Rattle.cell_graph.specs.Tables.{AreDefs, AreRefs, AreElements};
ghost use Rattle.cell_graph.specs.Causes.{IsCauseOf};
ghost use Rattle.graph_meaning.specs.Graph.{NoneDoubled, NoneCyclic};
ghost use Rattle.py_tree.specs.View.{view_cells};

use crate::cell_elements::elements;
use crate::cell_names::{defs, refs};
use crate::cell_places::places_of;
use crate::children::all_children;
use crate::cycles::cyclic_cells;
use crate::fault::GraphFault;
use crate::graph::Notebook;
use crate::order::order_of;
use crate::parents::all_parents;
use crate::readers::readers;
use py_tree::CellCode;
use py_value::{Lines, Memory};
use std::alloc::Global;

/// The notebook of these cells. It is refused where a name is defined in two cells, else where a cell lies on a cycle, and
/// where memory is wanting. The fault says which name and which cells.
pub fn notebook(alloc: Global, cells: Vec<CellCode>) -> Result<Notebook, GraphFault>
    requires { length cells.items < 2 ^ 32 }
    ensures same { IfOk result (λ nb. nb ≡ cells.items) }
    ensures once { IfOk result (λ nb. NoneDoubled (view_cells cells.items)) }
    ensures free { IfOk result (λ nb. NoneCyclic (view_cells cells.items)) }
    ensures refused { IfErr result (λ e. IsCauseOf e (view_cells cells.items)) }
{
    let defs = all_defs(alloc, cells.as_slice())?;
    let refs = all_refs(alloc, cells.as_slice())?;
    let parents = all_parents(alloc, defs.as_slice(), refs.as_slice())?;
    let children = all_children(alloc, parents.as_slice())?;
    let order = order_of(alloc, parents.as_slice(), children.as_slice())?;
    if order.len() < cells.len() {
        return Err(GraphFault::Cycle {
            cells: cyclic_cells(alloc, parents.as_slice())?,
        });
    }
    let elements = all_elements(alloc, cells.as_slice())?;
    let places = places_of(alloc, order.as_slice())?;
    let readers = readers(alloc, refs.as_slice())?;
    Ok(Notebook {
        cells,
        defs,
        refs,
        elements,
        parents,
        children,
        order,
        places,
        readers,
    })
}

// The names that each cell defines.
fn all_defs(alloc: Global, cells: &[CellCode]) -> Result<Vec<Lines>, Memory>
    ensures { IfOk result (λ lists. AreDefs (view_cells cells.now) lists.items) }
{
    let mut lists = Vec::new(alloc);
    for cell in cells {
        lists.push(defs(alloc, cell)?)?;
    }
    Ok(lists)
}

// The names that each cell references.
fn all_refs(alloc: Global, cells: &[CellCode]) -> Result<Vec<Lines>, Memory>
    ensures { IfOk result (λ lists. AreRefs (view_cells cells.now) lists.items) }
{
    let mut lists = Vec::new(alloc);
    for cell in cells {
        lists.push(refs(alloc, cell)?)?;
    }
    Ok(lists)
}

// The names of the elements that each cell creates.
fn all_elements(alloc: Global, cells: &[CellCode]) -> Result<Vec<Lines>, Memory>
    ensures { IfOk result (λ lists. AreElements (view_cells cells.now) lists.items) }
{
    let mut lists = Vec::new(alloc);
    for cell in cells {
        lists.push(elements(alloc, cell)?)?;
    }
    Ok(lists)
}
