// Notebooks with their graph.
ghost use Rattle.std.specs.Prelude.{◌≡◌, ℕ, ◌<◌, IsTrue, IfOk, length};
ghost use Rattle.graph_meaning.specs.Graph as graph;
ghost use Rattle.graph_meaning.specs.Reruns.{rerun};
ghost use Rattle.py_tree.specs.View.{view_cells};

use crate::cell_list::CellList;
use crate::place_set::{add_places, reader_places};
use crate::readers::Readers;
use py_tree::CellCode;
use py_value::{Lines, Memory};
use std::alloc::Global;
use std::marker::Model;

/// A notebook: cells with their graph. No name is defined in two of them, and none of them lies on a cycle. Contracts see it as
/// its cells in file order.
#[derive(Drop)]
pub struct Notebook {
    pub(crate) cells: Vec<CellCode>,
    pub(crate) defs: Vec<Lines>,
    pub(crate) refs: Vec<Lines>,
    pub(crate) elements: Vec<Lines>,
    pub(crate) parents: Vec<CellList>,
    pub(crate) children: Vec<CellList>,
    pub(crate) order: Vec<u32>,
    pub(crate) places: Vec<u32>,
    pub(crate) readers: Readers,
}

impl Model for Notebook {
    ghost use Rattle.std.specs.Prelude.{◌≡◌, List, ◌^◌, ◌<◌, length};
    ghost use Rattle.std.specs.Coded.{codes};
    ghost use Rattle.py_tree.specs.contracts.tree.Block as block;
    ghost use Rattle.py_tree.specs.declared.tree.CellCode.{CellCode};
    ghost use Rattle.py_tree.specs.View.{view_cells};
    ghost use Rattle.cell_graph.specs.Counts.{IsTranspose};
    ghost use Rattle.cell_graph.specs.Places.{ArePlaced};
    ghost use Rattle.cell_graph.specs.Readers.{HasReaders};
    ghost use Rattle.cell_graph.specs.Tables.{AreDefs, AreRefs, AreElements, AreParents};
    ghost use Rattle.graph_meaning.specs.Graph as graph;

    ghost Value = { List CellCode };

    ghost coded = { Prim.hlevel (codes, block.the_row.coded) };

    ghost view = { λ nb. nb.cells.items };

    ghost invariant = { λ nb. (length nb.cells.items < 2 ^ 32) × AreDefs (view_cells nb.cells.items) nb.defs.items
        × AreRefs (view_cells nb.cells.items) nb.refs.items
        × AreElements (view_cells nb.cells.items) nb.elements.items
        × AreParents (view_cells nb.cells.items) nb.parents.items × (nb.order.items ≡ graph.order (view_cells nb.cells.items))
        × graph.NoneDoubled (view_cells nb.cells.items) × graph.NoneCyclic (view_cells nb.cells.items)
        × IsTranspose nb.parents.items nb.children.items × ArePlaced nb.order.items nb.places.items nb.children.items
        × HasReaders nb.refs.items nb.readers };
}

impl Notebook {
    /// The cells in file order. No name is defined in two of them, and none lies on a cycle.
    pub fn cells(&self) -> &[CellCode]
        ensures cells { result.now ≡ self.now }
        ensures once { graph.NoneDoubled (view_cells self.now) }
        ensures free { graph.NoneCyclic (view_cells self.now) }
    {
        self.cells.as_slice()
    }

    /// The names that a cell defines.
    pub fn defs_of(&self, cell: u32) -> &Lines
        requires { cell < length self.now }
        ensures { result.now ≡ graph.defs_of (view_cells self.now) cell }
    {
        &self.defs[cell as usize]
    }

    /// The names that a cell references.
    pub fn refs_of(&self, cell: u32) -> &Lines
        requires { cell < length self.now }
        ensures { result.now ≡ graph.refs_of (view_cells self.now) cell }
    {
        &self.refs[cell as usize]
    }

    /// The names of the elements that a cell creates.
    pub fn elements_of(&self, cell: u32) -> &Lines
        requires { cell < length self.now }
        ensures { result.now ≡ graph.elements_of (view_cells self.now) cell }
    {
        &self.elements[cell as usize]
    }

    /// The cells that define a name that the cell references, in file order.
    pub fn parents(&self, cell: u32) -> &[u32]
        requires { cell < length self.now }
        ensures { result.now ≡ graph.parents (view_cells self.now) cell }
    {
        self.parents[cell as usize].items()
    }

    /// The order in which the cells run, in which every cell stands: the next cell is always the earliest in the file that isn't
    /// listed yet while its parents are.
    pub fn order(&self) -> &[u32]
        ensures order { result.now ≡ graph.order (view_cells self.now) }
        ensures every { (c : ℕ) → c < length self.now → IsTrue (graph.is_in c result.now) }
    {
        self.order.as_slice()
    }

    /// The cells that run again when these names change, in the order: those that reference one of them, and all behind these. The
    /// first cell that waits is always taken, so that all that lead to a cell are taken before it.
    pub fn rerun(&self, alloc: Global, names: &Lines) -> Result<CellList, Memory>
        ensures { IfOk result (λ cells. cells ≡ rerun (view_cells self.now) names.now) }
    {
        let places = self.places.as_slice();
        let mut pending = reader_places(alloc, &self.readers, places, names.items())?;
        let mut listed = Vec::new(alloc);
        while let Some(place) = pending.pop_first() {
            let cell = self.order[place as usize];
            listed.push(cell)?;
            add_places(&mut pending, places, self.children[cell as usize].items())?;
        }
        Ok(CellList::of(listed))
    }
}
